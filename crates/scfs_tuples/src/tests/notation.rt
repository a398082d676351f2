ghost use Rattle.std.specs.Prelude.{◌<◌, IfSome, length};

use crate::{Cond, Field, Give, Pattern, Reply, Step, StepResult, Template, Tuple, Want};
use scfs_base::{Bytes, Memory, Sequence, cut};
use std::alloc::Global;

/// A digit is a number, any other character a text.
fn field(alloc: Global, letter: u8) -> Result<Field, Memory> {
    match letter {
        b'0'..=b'9' => Ok(Field::Num(u64::from(letter - b'0'))),
        _ => Ok(Field::Text(Bytes::from_slice(alloc, &[letter])?)),
    }
}

fn digit(letter: u8) -> u8 {
    match letter {
        b'0'..=b'9' => letter - b'0',
        _ => 0,
    }
}

/// What a step is written with: `_` is any field, `$1` the variable 1, `@` the moment, `+5` a life of 5.
#[derive(Clone, Copy)]
enum Token {
    Any,
    Variable(u8),
    Now,
    Life(u8),
    Letter(u8),
}

fn next_token(text: &[u8]) -> Option<(Token, &[u8])>
    ensures { IfSome result (λ pair. length pair.1.now < length text.now) }
{
    let (letter, others) = text.split_first()?;
    match *letter {
        b'_' => Some((Token::Any, others)),
        b'@' => Some((Token::Now, others)),
        b'$' => others.split_first().map(|(variable, others)| (
            Token::Variable(digit(*variable)),
            others,
        )),
        b'+' => others
            .split_first()
            .map(|(life, others)| (Token::Life(digit(*life)), others)),
        letter => Some((Token::Letter(letter), others)),
    }
}

fn want(alloc: Global, token: Token) -> Result<Want, Memory> {
    match token {
        Token::Variable(variable) => Ok(Want::Bind(variable)),
        Token::Letter(letter) => Ok(Want::Eq(field(alloc, letter)?)),
        _ => Ok(Want::Any),
    }
}

fn give(alloc: Global, token: Token) -> Result<Give, Memory> {
    match token {
        Token::Variable(variable) => Ok(Give::Var(variable)),
        Token::Letter(letter) => Ok(Give::Val(field(alloc, letter)?)),
        _ => Ok(Give::Now),
    }
}

fn pattern(alloc: Global, text: &[u8]) -> Result<Pattern, Memory> {
    let mut wants = Sequence::new(alloc);
    let mut rest = text;
    'each: while let Some((next, others)) = next_token(rest) {
        wants.push(want(alloc, next)?)?;
        rest = others;
    }
    Ok(Pattern { wants })
}

fn template(alloc: Global, text: &[u8]) -> Result<Template, Memory> {
    let mut gives = Sequence::new(alloc);
    let mut life = None;
    let mut rest = text;
    'each: while let Some((next, others)) = next_token(rest) {
        match next {
            Token::Life(length) => life = Some(u64::from(length)),
            next => gives.push(give(alloc, next)?)?,
        }
        rest = others;
    }
    Ok(Template { gives, life })
}

fn cond(kind: u8, p: Pattern) -> Cond {
    match kind {
        b'n' => Cond::Need(p),
        b'x' => Cond::NoneOf(p),
        b't' => Cond::Take(p),
        _ => Cond::TakeAll(p),
    }
}

/// n needs, x wants none, t takes, T takes all, a asks for all, p puts.
fn add(alloc: Global, step: &mut Step, piece: &[u8]) -> Result<(), Memory> {
    let Some((kind, text)) = piece.split_first() else {
        return Ok(());
    };
    match *kind {
        b'p' => step.puts.push(template(alloc, text)?),
        b'a' => step.all.push(pattern(alloc, text)?),
        kind => step.conds.push(cond(kind, pattern(alloc, text)?)),
    }
}

/// Pieces parted by `;`.
pub fn read(alloc: Global, text: &[u8]) -> Result<Step, Memory> {
    let mut step = Step {
        conds: Sequence::new(alloc),
        all: Sequence::new(alloc),
        puts: Sequence::new(alloc),
    };
    let mut rest = text;
    'each: while let Some((piece, others)) = cut(rest, b';') {
        add(alloc, &mut step, piece)?;
        rest = others;
    }
    add(alloc, &mut step, rest)?;
    Ok(step)
}

fn show_number(out: &mut Bytes, number: u64) -> Result<(), Memory> {
    match u8::try_from(number) {
        Ok(small) if small < 10 => out.push(b'0' + small),
        _ => out.push(b'#'),
    }
}

fn show_tuple(out: &mut Bytes, tuple: &Tuple) -> Result<(), Memory> {
    for field in tuple.fields.as_slice() {
        match field {
            Field::Num(number) => show_number(out, *number)?,
            Field::Text(text) => out.extend(text.as_slice())?,
        }
    }
    if let Some(until) = tuple.until {
        out.push(b'<')?;
        show_number(out, until)?;
    }
    Ok(())
}

/// Tuples parted by spaces, each with its end of life.
pub fn show_tuples(out: &mut Bytes, tuples: &[Tuple]) -> Result<(), Memory> {
    for (at, tuple) in tuples.iter().enumerate() {
        if at > 0 {
            out.push(b' ')?;
        }
        show_tuple(out, tuple)?;
    }
    Ok(())
}

fn show_fields(out: &mut Bytes, fields: &[Field]) -> Result<(), Memory> {
    if fields.is_empty() {
        out.push(b'-')?;
    }
    for field in fields {
        match field {
            Field::Num(number) => show_number(out, *number)?,
            Field::Text(text) => out.extend(text.as_slice())?,
        }
    }
    Ok(())
}

/// `did`, the bound fields, how many were taken, and the rows; or `no`, the index and the tuple.
pub fn show_reply(out: &mut Bytes, reply: &Reply) -> Result<(), Memory> {
    match &reply.result {
        StepResult::Did { bound, taken, rows } => {
            out.extend(b"did ")?;
            show_fields(out, bound.as_slice())?;
            out.push(b' ')?;
            show_number(out, *taken)?;
            for row in rows.as_slice() {
                out.extend(b" (")?;
                show_tuples(out, row.as_slice())?;
                out.push(b')')?;
            }
        }
        StepResult::Refused { index, tuple } => {
            out.extend(b"no ")?;
            show_number(out, *index)?;
            if let Some(tuple) = tuple {
                out.push(b' ')?;
                show_tuple(out, tuple)?;
            }
        }
    }
    Ok(())
}
