ghost use Rattle.std.proofs.Common.{rules};
ghost use Rattle.std.specs.Cmp.{partial_order_from_own_ties};
ghost use Rattle.std.specs.Cmp.Rules.{comparing};
ghost use Rattle.std.specs.Ordering.{as_partial_cmp, eq_by_cmp};
ghost use Rattle.scfs_tuples.specs.Order.{field_cmp};

use crate::Field;
use std::cmp::Ordering;

impl Ord for Field {
    ghost cmp = { field_cmp };

    ghost total = { Prim.search (comparing, rules) };

    ghost matches_partial_cmp = { Prim.search (comparing, rules) };

    ghost matches_eq = { Prim.search (comparing, rules) };

    fn cmp(&self, other: &Field) -> Ordering {
        match self {
            Field::Num(number) => match other {
                Field::Num(other) => number.cmp(other),
                Field::Text(_) => Ordering::Less,
            },
            Field::Text(text) => match other {
                Field::Num(_) => Ordering::Greater,
                Field::Text(other) => text.as_slice().cmp(other.as_slice()),
            },
        }
    }
}

impl PartialOrd for Field {
    ghost partial_cmp = { as_partial_cmp field_cmp };

    ghost laws = { partial_order_from_own_ties (Prim.search (comparing, rules)) (Prim.search (comparing, rules)) };

    fn partial_cmp(&self, other: &Field) -> Option<Ordering> {
        Some(self.cmp(other))
    }
}

impl PartialEq for Field {
    ghost eq = { eq_by_cmp field_cmp };

    ghost laws = { Prim.search (comparing, rules) };

    fn eq(&self, other: &Field) -> bool {
        self.cmp(other).is_eq()
    }
}

impl Eq for Field {
    ghost laws = { Prim.search (comparing, rules) };
}
