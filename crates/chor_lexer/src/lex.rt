//! The tokens of a file.

ghost use Rattle.std.specs.Prelude.{◌≡◌, ◌-◌, ◌^◌, ◌<◌, ◌∷◌, ◌++◌, [], length, OnOk, IfOk, IfErr};
ghost use Rattle.std.specs.List.{AllByRecursion};
ghost use Rattle.chor_lexer.specs.Lexeme.{Symbol, word, text, IsLexeme};
ghost use Rattle.chor_lexer.specs.Tokens.{AreTokensOf, IsKnown, with_name, with_text, Spells, Grows, HasSymbol};
ghost use Rattle.chor_lexer.specs.Refusal.{IsDenial};
ghost use Rattle.chor_lexer.specs.Scan.{HasForm, IsWritten};

use crate::place::{first_place, place_after};
use crate::scan::{Form, Piece, piece_at};
use crate::text::text_of;
use crate::token::{Kind, Token, Tokens};
use chor_base::{Denied, List, Memory, Names, Place, Refusal, Rule, Texts};
use std::alloc::Global;
use std::str;

/// The tokens of a file. Its words get numbers in `names`, and its texts in `texts`.
///
/// It is refused by L4 where it stops being UTF-8. Else the first fault counts: L1 is a character
/// that begins no token, or an escape that doesn't exist; L2 a text that isn't closed on its line;
/// L3 a number above 9223372036854775807; L5 a word of more than 64 bytes, or a text of more than
/// 256 bytes between its quotes. Words and texts before a fault may have got numbers then.
pub fn tokens(
    alloc: Global,
    bytes: &[u8],
    names: &mut Names,
    texts: &mut Texts,
) -> Result<Tokens, Denied>
    requires { length bytes.now < 2 ^ 32 - 1 }
    ensures found { IfOk result (λ tokens. AreTokensOf bytes.now names.old texts.old names.new texts.new tokens.items) }
    ensures known { IfOk result (λ tokens. AllByRecursion (IsKnown names.new) tokens.items) }
    ensures denied { IfErr result (IsDenial bytes.now) }
    ensures names { Grows (λ w. HasSymbol bytes.now (word w)) names.old names.new }
    ensures texts { Grows (λ t. HasSymbol bytes.now (text t)) texts.old texts.new }
{
    if let Err(error) = str::from_utf8(bytes) {
        let valid = &bytes[..error.valid_up_to()];
        return Err(refused(Rule::L4, place_after(first_place(), valid)));
    }
    let mut items = List::new(alloc);
    let mut rest = bytes;
    let mut place = first_place();
    while !rest.is_empty() {
        match piece_at(rest) {
            Ok(Piece::Blank(len)) => {
                let (blank, after) = rest.split_at(len);
                place = place_after(place, blank);
                rest = after;
            }
            Ok(Piece::Token(form, len)) => {
                let (written, after) = rest.split_at(len);
                let kind = kind_of(alloc, form, written, names, texts)?;
                items.push(Token { kind, place })?;
                place = place_after(place, written);
                rest = after;
            }
            Err(fault) => {
                return Err(refused(fault.rule, place_after(place, &rest[..fault.offset])));
            }
        }
    }
    items.push(Token {
        kind: Kind::Last,
        place,
    })?;
    Ok(Tokens { items })
}

// The kind of a token that is written so. A word or a text goes into its table.
fn kind_of(
    alloc: Global,
    form: Form,
    written: &[u8],
    names: &mut Names,
    texts: &mut Texts,
) -> Result<Kind, Memory>
    requires { IsWritten form written.now }
    ensures kind { IfOk result (λ kind. (s : Symbol) → HasForm form s → IsLexeme s written.now → Spells names.new texts.new kind s) }
    ensures names_are { OnOk result ((s : Symbol) → HasForm form s → IsLexeme s written.now → names.new ≡ with_name names.old s) }
    ensures texts_are { OnOk result ((s : Symbol) → HasForm form s → IsLexeme s written.now → texts.new ≡ with_text texts.old s) }
    ensures names { Grows (λ w. IsLexeme (word w) written.now) names.old names.new }
    ensures texts { Grows (λ t. IsLexeme (text t) written.now) texts.old texts.new }
{
    match form {
        Form::Word => Ok(Kind::Word(names.intern(written)?)),
        Form::Number(value) => Ok(Kind::Number(value)),
        Form::Text => {
            let text = text_of(alloc, between_quotes(written))?;
            Ok(Kind::Text(texts.intern(text.as_slice())?))
        }
        Form::Mark(mark) => Ok(Kind::Mark(mark)),
    }
}

// The bytes between the quotes of a text.
fn between_quotes(written: &[u8]) -> &[u8]
    requires { IsWritten Form.Text written.now }
    ensures { written.now ≡ 34 ∷ result.now ++ 34 ∷ [] }
{
    let (_, after) = written.split_at(1);
    let (body, _) = after.split_at(after.len() - 1);
    body
}

// The refusal by a rule at a place.
pub fn refused(rule: Rule, place: Place) -> Denied
    ensures { result ≡ Denied.Refused (record { rule = rule; place = place; who = None }) }
{
    Denied::Refused(Refusal {
        rule,
        place,
        who: None,
    })
}
