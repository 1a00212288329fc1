// A comment, which contracts see as the list of its units.
ghost use Rattle.std.specs.Prelude.{◌≡◌, ℕ, List};

use std::marker::Model;

/// The comment of a page: code units of 16 bits, as in ECMAScript's strings.
#[derive(Debug, Drop)]
pub struct Comment {
    units: Vec<u16>,
}

impl Model for Comment {
    ghost Value = { List ℕ };

    ghost view = { λ comment. comment.units.items };
}

impl Comment {
    /// The comment with these units.
    pub fn from_units(units: Vec<u16>) -> Comment
        ensures { result ≡ units.items }
    {
        Comment { units }
    }

    /// The units of the comment.
    pub fn units(&self) -> &[u16]
        ensures { result.now ≡ self.now }
    {
        &self.units
    }
}

impl PartialEq for Comment {
    ghost use Rattle.std.specs.Prelude.{nat_eq};
    ghost use Rattle.std.specs.Cmp.{partial_equiv_from_equiv};
    ghost use Rattle.std.specs.Cmp.Lexicographic.{nat_list_eq_equiv, pointwise};

    ghost eq = { pointwise nat_eq };

    ghost laws = { partial_equiv_from_equiv nat_list_eq_equiv };

    fn eq(&self, other: &Comment) -> bool {
        self.units == other.units
    }
}

impl Eq for Comment {
    ghost use Rattle.std.specs.Cmp.Lexicographic.{nat_list_eq_equiv};

    ghost laws = { nat_list_eq_equiv };
}
