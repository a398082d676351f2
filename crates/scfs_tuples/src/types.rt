use scfs_base::{Bytes, Sequence};

/// One field of a tuple: a number, or a text.
#[derive(Debug, Drop)]
pub enum Field {
    Num(u64),
    Text(Bytes),
}

/// A tuple, and the moment at which its life ends: it lives before `until`, and for ever where there is none.
#[derive(Debug, Drop)]
pub struct Tuple {
    pub fields: Sequence<Field>,
    pub until: Option<u64>,
}

/// What a pattern wants of one field: an equal one, any one, or what the variable of that number stands for.
#[derive(Debug, Drop)]
pub enum Want {
    Eq(Field),
    Any,
    Bind(u8),
}

/// The wants of all fields of a tuple, in order. It fits only tuples of as many fields.
#[derive(Debug, Drop)]
pub struct Pattern {
    pub wants: Sequence<Want>,
}

/// A condition of a step: a tuple that fits, no tuple that fits, a tuple that fits and is taken away, all tuples that fit are
/// taken away.
#[derive(Debug, Drop)]
pub enum Cond {
    Need(Pattern),
    NoneOf(Pattern),
    Take(Pattern),
    TakeAll(Pattern),
}

/// A field of a tuple to be put: this field, what the variable of that number stands for, or the moment of the step.
#[derive(Debug, Drop)]
pub enum Give {
    Val(Field),
    Var(u8),
    Now,
}

/// A tuple to be put, and how long it lives from the moment of the step on.
#[derive(Debug, Drop)]
pub struct Template {
    pub gives: Sequence<Give>,
    pub life: Option<u64>,
}

/// A conditional step: if all conditions hold, then the tuples of `puts` are put. The answer shows the tuples that fit the
/// patterns of `all`.
#[derive(Debug, Drop)]
pub struct Step {
    pub conds: Sequence<Cond>,
    pub all: Sequence<Pattern>,
    pub puts: Sequence<Template>,
}

/// What a step came to. Done: the fields that the variables stand for, how many tuples the `TakeAll` conditions took, and for
/// each pattern of `all` the tuples that fit. Refused: the first condition that fails, counted from 0, and the first tuple that
/// fits where a `NoneOf` wants none.
#[derive(Debug, Drop)]
pub enum StepResult {
    Did {
        bound: Sequence<Field>,
        taken: u64,
        rows: Sequence<Sequence<Tuple>>,
    },
    Refused {
        index: u64,
        tuple: Option<Tuple>,
    },
}

/// The answer to a step, with the moment of the step.
#[derive(Debug, Drop)]
pub struct Reply {
    pub now: u64,
    pub result: StepResult,
}
