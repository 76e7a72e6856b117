//! Who receives a message.
use dbc_sheet::Signal;
use std::alloc::{AllocError, Global};

/// A node that receives signals of a message.
#[derive(Clone, Copy)]
pub struct Receiver<'a> {
    /// Its name.
    pub name: &'a [u8],
    /// How many of the signals it receives.
    pub signals: usize,
    /// The number of the first mention of it.
    first: usize,
}

/// That a node receives a signal.
#[derive(Clone, Copy)]
struct Mention<'a> {
    /// The node's name.
    name: &'a [u8],
    /// The index of the signal.
    signal: usize,
    /// How many mentions were before.
    number: usize,
}

/// All mentions, by the nodes' names, and those of a node in the order of the signals.
fn mentions_of<'a>(alloc: Global, signals: &'a [Signal]) -> Result<Vec<Mention<'a>>, AllocError> {
    let mut mentions = Vec::new(alloc);
    for (index, signal) in signals.iter().enumerate() {
        for name in signal.receivers.as_slice() {
            mentions.push(Mention {
                name: name.as_bytes(),
                signal: index,
                number: mentions.len(),
            })?;
        }
    }
    mentions.sort_by_key(|mention| mention.name)?;
    Ok(mentions)
}

/// How many signals are mentioned, where mentions of a signal are neighbours.
fn signal_count(mentions: &[Mention<'_>]) -> usize {
    mentions.chunk_by(|a, b| a.signal == b.signal).count()
}

/// The nodes that receive some of the signals, in the order in which they are first mentioned. The error is out of
/// memory.
pub fn receivers_of<'a>(
    alloc: Global,
    signals: &'a [Signal],
) -> Result<Vec<Receiver<'a>>, AllocError> {
    let mentions = mentions_of(alloc, signals)?;
    let mut receivers = Vec::new(alloc);
    for of_node in mentions.chunk_by(|a, b| a.name == b.name) {
        if let Some(mention) = of_node.first() {
            receivers.push(Receiver {
                name: mention.name,
                signals: signal_count(of_node),
                first: mention.number,
            })?;
        }
    }
    receivers.sort_unstable_by_key(|receiver| receiver.first);
    Ok(receivers)
}
