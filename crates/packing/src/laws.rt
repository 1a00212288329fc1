// Laws of tilings: functions with an empty body whose contract is the law.
ghost use Rattle.std.specs.Prelude.{◌≡◌, ℕ, true, ◌↔◌};
ghost use Rattle.lane_board.specs.Field.{Field};
ghost use Rattle.prune.specs.Tiling.{Supply, Tiling};
ghost use Rattle.empty_cells.specs.HasTiling.{has_tiling};

/// A test decides whether a tiling exists.
pub fn tilings_are_decided()
    ensures { (F : Field) (rows : ℕ) (supply : Supply)
        → (has_tiling F rows supply ≡ true) ↔ Tiling F rows supply }
{}
