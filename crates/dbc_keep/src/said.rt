//! Whether skipped statements declare the attribute with suspect parameter numbers, as the canonical text does.
ghost use Rattle.std.specs.Prelude.{◌≡◌, drop};
ghost use Rattle.dbc_grammar.specs.Rules.{starts};
ghost use Rattle.dbc_keep.specs.Finding.{any_says, has_text, says_there};
ghost use Rattle.dbc_keep_law.specs.Kept.{defaults_spn, defines_spn};

use crate::places::KeptPlace;
use dbc_lex::Lexer;
use dbc_read::Passed;

/// Takes the next token if there is one, and says whether it is there and has this text.
pub(crate) fn is_next(lexer: &mut Lexer, text: &[u8]) -> bool
    ensures is { result ≡ starts (has_text text.now) lexer.old.tokens }
    ensures rest { lexer.new.tokens ≡ drop 1 lexer.old.tokens }
{
    match lexer.next_token() {
        Ok(Some(token)) => token.text == text,
        Ok(None) => false,
        Err(_) => false,
    }
}

/// Takes the next token if there is one.
pub(crate) fn skip(lexer: &mut Lexer)
    ensures { lexer.new.tokens ≡ drop 1 lexer.old.tokens }
{
    let _next = lexer.next_token();
}

/// Whether it defines the attribute: `BA_DEF_ SG_ "SPN"`.
fn defines_spn(source: &[u8], one: Passed) -> bool
    ensures { result ≡ says_there source.now 6 defines_spn one }
{
    if !KeptPlace::Definitions.has(one.keyword) {
        return false;
    }
    let mut lexer = Lexer::at(source, one.at);
    if !is_next(&mut lexer, b"BA_DEF_") {
        return false;
    }
    if !is_next(&mut lexer, b"SG_") {
        return false;
    }
    is_next(&mut lexer, b"\"SPN\"")
}

/// Whether it gives the attribute's default: `BA_DEF_DEF_ "SPN"`.
fn defaults_spn(source: &[u8], one: Passed) -> bool
    ensures { result ≡ says_there source.now 7 defaults_spn one }
{
    if !KeptPlace::Defaults.has(one.keyword) {
        return false;
    }
    let mut lexer = Lexer::at(source, one.at);
    if !is_next(&mut lexer, b"BA_DEF_DEF_") {
        return false;
    }
    is_next(&mut lexer, b"\"SPN\"")
}

/// Whether one of them defines the attribute.
pub(crate) fn is_defined(source: &[u8], passed: &[Passed]) -> bool
    ensures { result ≡ any_says source.now 6 defines_spn passed.now }
{
    passed.iter().any(|one| defines_spn(source, *one))
}

/// Whether one of them gives its default.
pub(crate) fn is_defaulted(source: &[u8], passed: &[Passed]) -> bool
    ensures { result ≡ any_says source.now 7 defaults_spn passed.now }
{
    passed.iter().any(|one| defaults_spn(source, *one))
}
