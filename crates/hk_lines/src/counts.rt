//! The phrases of `among`, `sequence` and `gcc`: what is counted, and how many variables may take it.

ghost use Rattle.hk_text.specs.Tokens.{IsTokenIn};
ghost use Rattle.std.specs.Prelude.{All, IfOk, IfSome, IsNone, map};
ghost use Rattle.hk_text.specs.Texts.{texts_of};
ghost use Rattle.hk_lines.specs.Plain.{plain_values, plain_counting, plain_row, rows_of};
ghost use Rattle.hk_lines.specs.Phrases.{AreCounting, AreRows, RowThen};
ghost use Rattle.hk_lines.specs.inside.Capped.{AreNone, BeginsCapped, BeginsWithout, IsCapped};
ghost use Rattle.hk_lines.specs.inside.Pieces.{IsWholeRange};
ghost use Rattle.hk_lines.specs.Shapes.{capped_counting, capped_row, capped_values};

use crate::phrases::{CAP, Values, names_of, range_of, set_of};
use hk_base::List;
use hk_text::{Token, after_text, number_of as digits_of, number_up_to};
use std::alloc::{AllocError, Global};

/// How many of the variables of these names may take a value of the set: from `least` to `most`.
#[derive(Drop)]
pub struct Counting<'a> {
    pub names: List<&'a [u8]>,
    pub set: List<Values>,
    pub least: u64,
    pub most: u64,
}

/// How many variables may take the value: from `least` to `most`. The value's digits tell it from
/// each other value, also where both are above all limits.
#[derive(Clone, Copy)]
pub struct Row<'a> {
    pub value: u64,
    pub digits: &'a [u8],
    pub least: u64,
    pub most: u64,
}

/// Two numbers with `..` between them, where the tokens are them and no more.
fn counts_of(line: &[u8], tokens: &[Token]) -> Option<Values>
    requires { All (IsTokenIn line.now) tokens.now }
    ensures some { IfSome result (λ counts. IsCapped IsWholeRange capped_values (texts_of line.now tokens.now) (plain_values counts)) }
    ensures none { IsNone result → AreNone IsWholeRange (texts_of line.now tokens.now) }
{
    let (counts, rest) = range_of(line, tokens)?;
    if !rest.is_empty() {
        return None;
    }
    Some(counts)
}

/// The names of a scope after its opening parenthesis, a set and two numbers of variables, where the
/// tokens are them and no more.
pub fn counting_of<'a>(
    alloc: Global,
    line: &'a [u8],
    tokens: &[Token],
) -> Result<Option<Counting<'a>>, AllocError>
    requires { All (IsTokenIn line.now) tokens.now }
    ensures some { IfOk result (λ read. IfSome read (λ counting. IsCapped AreCounting capped_counting (texts_of line.now tokens.now) (plain_counting counting))) }
    ensures none { IfOk result (λ read. IsNone read → AreNone AreCounting (texts_of line.now tokens.now)) }
{
    let Some((names, after)) = names_of(alloc, line, tokens)? else {
        return Ok(None);
    };
    let Some((set, rest)) = set_of(alloc, line, after)? else {
        return Ok(None);
    };
    let Some(counts) = counts_of(line, rest) else {
        return Ok(None);
    };
    Ok(Some(Counting {
        names,
        set,
        least: counts.first,
        most: counts.last,
    }))
}

/// A value, `:` and two numbers of variables, and the tokens after them.
fn row_of<'a, 't>(line: &'a [u8], tokens: &'t [Token]) -> Option<(Row<'a>, &'t [Token])>
    requires { All (IsTokenIn line.now) tokens.now }
    ensures some { IfSome result (λ found. BeginsCapped RowThen capped_row (texts_of line.now tokens.now) (plain_row found.0) (texts_of line.now found.1.now)) }
    ensures tokens { IfSome result (λ found. All (IsTokenIn line.now) found.1.now) }
    ensures none { IsNone result → BeginsWithout RowThen (texts_of line.now tokens.now) }
{
    let (digits, after) = digits_of(line, tokens)?;
    let value = number_up_to(digits, CAP)?;
    let after = after_text(line, after, b":")?;
    let (counts, rest) = range_of(line, after)?;
    Some((
        Row {
            value,
            digits,
            least: counts.first,
            most: counts.last,
        },
        rest,
    ))
}

/// Rows, where the tokens are them and no more.
pub fn rows_of<'a>(
    alloc: Global,
    line: &'a [u8],
    tokens: &[Token],
) -> Result<Option<List<Row<'a>>>, AllocError>
    requires { All (IsTokenIn line.now) tokens.now }
    ensures some { IfOk result (λ read. IfSome read (λ rows. IsCapped AreRows (map capped_row) (texts_of line.now tokens.now) (rows_of rows))) }
    ensures none { IfOk result (λ read. IsNone read → AreNone AreRows (texts_of line.now tokens.now)) }
{
    let mut rows = List::new(alloc);
    let mut left = tokens;
    'rows: loop {
        let Some((row, after)) = row_of(line, left) else {
            return Ok(None);
        };
        rows.push(row)?;
        if after.is_empty() {
            return Ok(Some(rows));
        }
        let Some(more) = after_text(line, after, b",") else {
            return Ok(None);
        };
        left = more;
    }
}
