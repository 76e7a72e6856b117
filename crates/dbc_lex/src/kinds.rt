//! Which bytes begin a token of each kind, and which go on in a name.
ghost use Rattle.std.specs.Prelude.{◌≡◌, false, slice_get, unwrap_or};
ghost use Rattle.dbc_words.specs.Name.{continues_identifier};
ghost use Rattle.dbc_lex.specs.Class.{class_of};
ghost use Rattle.dbc_lex.specs.declared.kinds.Class.TheVariants.{Stray};

/// What begins with a byte: a gap, a token of some kind, or nothing. A space has a class of its own, since if all gaps
/// were of one class, the compiler would test for that before it jumps by the others, which takes longer.
#[derive(Clone, Copy)]
pub(crate) enum Class {
    Name,
    Number,
    Text,
    Mark,
    Gap,
    Stray,
    Space,
}

const NAME: Class = Class::Name;

const NUMBER: Class = Class::Number;

const TEXT: Class = Class::Text;

const MARK: Class = Class::Mark;

const GAP: Class = Class::Gap;

const STRAY: Class = Class::Stray;

const SPACE: Class = Class::Space;

/// For each byte what begins with it.
const CLASSES: [Class; 256] = [
    STRAY, STRAY, STRAY, STRAY, STRAY, STRAY, STRAY, STRAY, STRAY, GAP, GAP, GAP, GAP, GAP, STRAY,
    STRAY, STRAY, STRAY, STRAY, STRAY, STRAY, STRAY, STRAY, STRAY, STRAY, STRAY, STRAY, STRAY,
    STRAY, STRAY, STRAY, STRAY, SPACE, STRAY, TEXT, STRAY, STRAY, STRAY, STRAY, STRAY, MARK, MARK,
    STRAY, MARK, MARK, MARK, STRAY, STRAY, NUMBER, NUMBER, NUMBER, NUMBER, NUMBER, NUMBER, NUMBER,
    NUMBER, NUMBER, NUMBER, MARK, MARK, STRAY, STRAY, STRAY, STRAY, MARK, NAME, NAME, NAME, NAME,
    NAME, NAME, NAME, NAME, NAME, NAME, NAME, NAME, NAME, NAME, NAME, NAME, NAME, NAME, NAME, NAME,
    NAME, NAME, NAME, NAME, NAME, NAME, MARK, STRAY, MARK, STRAY, NAME, STRAY, NAME, NAME, NAME,
    NAME, NAME, NAME, NAME, NAME, NAME, NAME, NAME, NAME, NAME, NAME, NAME, NAME, NAME, NAME, NAME,
    NAME, NAME, NAME, NAME, NAME, NAME, NAME, STRAY, MARK, STRAY, STRAY, STRAY, STRAY, STRAY,
    STRAY, STRAY, STRAY, STRAY, STRAY, STRAY, STRAY, STRAY, STRAY, STRAY, STRAY, STRAY, STRAY,
    STRAY, STRAY, STRAY, STRAY, STRAY, STRAY, STRAY, STRAY, STRAY, STRAY, STRAY, STRAY, STRAY,
    STRAY, STRAY, STRAY, STRAY, STRAY, STRAY, STRAY, STRAY, STRAY, STRAY, STRAY, STRAY, STRAY,
    STRAY, STRAY, STRAY, STRAY, STRAY, STRAY, STRAY, STRAY, STRAY, STRAY, STRAY, STRAY, STRAY,
    STRAY, STRAY, STRAY, STRAY, STRAY, STRAY, STRAY, STRAY, STRAY, STRAY, STRAY, STRAY, STRAY,
    STRAY, STRAY, STRAY, STRAY, STRAY, STRAY, STRAY, STRAY, STRAY, STRAY, STRAY, STRAY, STRAY,
    STRAY, STRAY, STRAY, STRAY, STRAY, STRAY, STRAY, STRAY, STRAY, STRAY, STRAY, STRAY, STRAY,
    STRAY, STRAY, STRAY, STRAY, STRAY, STRAY, STRAY, STRAY, STRAY, STRAY, STRAY, STRAY, STRAY,
    STRAY, STRAY, STRAY, STRAY, STRAY, STRAY, STRAY, STRAY, STRAY, STRAY, STRAY, STRAY, STRAY,
    STRAY, STRAY, STRAY, STRAY, STRAY, STRAY, STRAY, STRAY, STRAY,
];

/// The table's entry for the byte, or `Stray` past its end.
#[inline(always)]
fn entry(classes: &[Class], byte: u8) -> Class
    ensures { result ≡ unwrap_or (slice_get classes.now byte) Stray }
{
    classes
        .get(usize::from(byte))
        .copied()
        .unwrap_or(Class::Stray)
}

/// What begins with the byte.
#[inline(always)]
pub(crate) fn class_of(byte: u8) -> Class
    ensures { result ≡ class_of byte }
{
    entry(&CLASSES, byte)
}

/// For each byte whether it may come after the first one of a name.
const CONTINUES: [bool; 256] = [
    false, false, false, false, false, false, false, false, false, false, false, false, false,
    false, false, false, false, false, false, false, false, false, false, false, false, false,
    false, false, false, false, false, false, false, false, false, false, false, false, false,
    false, false, false, false, false, false, false, false, false, true, true, true, true, true,
    true, true, true, true, true, false, false, false, false, false, false, false, true, true,
    true, true, true, true, true, true, true, true, true, true, true, true, true, true, true, true,
    true, true, true, true, true, true, true, true, false, false, false, false, true, false, true,
    true, true, true, true, true, true, true, true, true, true, true, true, true, true, true, true,
    true, true, true, true, true, true, true, true, true, false, false, false, false, false, false,
    false, false, false, false, false, false, false, false, false, false, false, false, false,
    false, false, false, false, false, false, false, false, false, false, false, false, false,
    false, false, false, false, false, false, false, false, false, false, false, false, false,
    false, false, false, false, false, false, false, false, false, false, false, false, false,
    false, false, false, false, false, false, false, false, false, false, false, false, false,
    false, false, false, false, false, false, false, false, false, false, false, false, false,
    false, false, false, false, false, false, false, false, false, false, false, false, false,
    false, false, false, false, false, false, false, false, false, false, false, false, false,
    false, false, false, false, false, false, false, false, false, false, false, false, false,
    false, false, false, false, false, false, false, false, false, false,
];

/// The table's entry for the byte, or `false` past its end.
#[inline(always)]
fn flag(flags: &[bool], byte: u8) -> bool
    ensures { result ≡ unwrap_or (slice_get flags.now byte) false }
{
    flags.get(usize::from(byte)).copied().unwrap_or(false)
}

/// Whether the byte may come after the first one of a name. A name has many bytes, so this is a table and no test.
#[inline(always)]
pub(crate) fn continues_name(byte: u8) -> bool
    ensures { result ≡ continues_identifier byte }
{
    flag(&CONTINUES, byte)
}
