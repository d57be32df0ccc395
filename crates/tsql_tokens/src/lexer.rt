ghost use Rattle.std.specs.Prelude.{◌≡◌, ◌≤◌, ℕ, List, false, length, ◌++◌, All, OnOk, IfOk, IfErr, MatchResult};
ghost use Rattle.tsql_tokens.specs.Tokens.{kind_of, is_name, spanned, HasTokens, IsSpan, IsRefused, Refuses, AnswersOnly};
ghost use Rattle.tsql_tokens.specs.Cutting.{cut, Gives};
ghost use Rattle.tsql_tokens.specs.declared.token.Token.{Token};

use crate::lexeme::{Lexeme, piece_at};
use crate::limits::{open_after, over_limit};
use crate::reserved::is_reserved;
use crate::token::{Token, TokenKind, TokenRefusal};
use cs_base::{Items, Memory};
use std::alloc::Global;

/// The kind of token that a lexeme is. Blanks and comments are none.
#[tactic(auto, unfolding(crate::specs::Tokens::kind_of))]
fn kind_of(lexeme: Lexeme, bytes: &[u8]) -> Option<TokenKind>
    ensures { result ≡ kind_of lexeme bytes.now }
{
    match lexeme {
        Lexeme::Blank | Lexeme::LineComment | Lexeme::Comment => None,
        Lexeme::Word if is_reserved(bytes) => Some(TokenKind::Reserved),
        Lexeme::Word | Lexeme::Bracketed => Some(TokenKind::Name),
        Lexeme::Number => Some(TokenKind::Number),
        Lexeme::Text => Some(TokenKind::Text),
        Lexeme::Sign => Some(TokenKind::Sign),
    }
}

/// Adds the token of a kind, if it is one.
fn add(found: &mut Items<Token>, kind: Option<TokenKind>, from: u32, to: u32) -> Result<(), Memory>
    ensures { OnOk result (found.new ≡ found.old ++ spanned kind from to) }
{
    if let Some(kind) = kind {
        found.push(Token { kind, from, to })?;
    }
    Ok(())
}

/// Whether the last token is a name, after a lexeme of this kind.
fn is_name(after_name: bool, kind: Option<TokenKind>) -> bool
    ensures { result ≡ is_name after_name kind }
{
    match kind {
        Some(TokenKind::Name) => true,
        Some(_) => false,
        None => after_name,
    }
}

/// Cuts a text into tokens, from the left.
#[tactic(auto, using(crate::proofs::Comments::comment_steps))]
fn cut(alloc: Global, text: &[u8]) -> Result<Items<Token>, TokenRefusal>
    requires { length text.now ≤ 131_072 }
    ensures { Gives result (cut (length text.now) 0 false 0 text.now) }
{
    let mut found = Items::new(alloc);
    let mut rest = text;
    let mut at = 0;
    let mut open = 0;
    let mut after_name = false;
    'more: while !rest.is_empty() {
        let Some(piece) = piece_at(rest, after_name) else {
            return Err(TokenRefusal::At {
                number: 102,
                at: at + 1,
            });
        };
        if let Some(part) = over_limit(open, piece.lexeme, piece.bytes) {
            let offset = (piece.bytes.len() - part.len()) as u32;
            return Err(TokenRefusal::At {
                number: 50_001,
                at: at + offset + 1,
            });
        }
        let to = at + piece.bytes.len() as u32;
        let kind = kind_of(piece.lexeme, piece.bytes);
        add(&mut found, kind, at, to)?;
        after_name = is_name(after_name, kind);
        open = open_after(open, piece.lexeme, piece.bytes);
        at = to;
        rest = piece.after;
    }
    Ok(found)
}

/// The tokens of a text of at most 131,072 bytes, each a span of it, in order. Blanks (a space or a tab), `--` up to
/// the text's end and `/* .. */`, which nest, separate tokens and are none.
///
/// Else the leftmost place at which the text is refused. It is 102 at a byte that begins no token, at an open text,
/// bracket or comment, and at `[]`. It is 50001 at a name of more than 128 bytes, at a number of more than 19 digits,
/// or 18 after the point, at a text with a tab in it, and at a parenthesis or comment that is the 65th open one. Where
/// both stand at one place it is 102. `Memory` where there is no room for the tokens.
pub fn tokens(alloc: Global, text: &[u8]) -> Result<Items<Token>, TokenRefusal>
    requires { length text.now ≤ 131_072 }
    // What is given are the text's tokens.
    ensures found { IfOk result (λ tokens. HasTokens text.now tokens) }
    // Each is a span of the text.
    ensures spans { IfOk result (λ tokens. All (IsSpan (length text.now)) tokens) }
    // A text that has tokens gives them, and no others.
    ensures only { (others : List Token) → HasTokens text.now others → MatchResult result (λ tokens. tokens ≡ others) (λ e. e ≡ TokenRefusal.Memory) }
    // What is refused is refused where the lexemes before it are within the limits.
    ensures refused { IfErr result (λ e. Refuses text.now e) }
    // A text that is refused at a place is refused there, and nowhere else.
    ensures place { (number at : ℕ) → IsRefused text.now number at → MatchResult result (λ tokens. ⊥) (λ e. AnswersOnly number at e) }
{
    cut(alloc, text)
}
