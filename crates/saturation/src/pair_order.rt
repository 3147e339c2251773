ghost use Rattle.std.specs.Prelude.{◌≡◌, [], ◌∷◌};
ghost use Rattle.model.specs.Moves.{laid_down};

use text::line::OrderLine;

// An order that lays two wagons down, with these wagons, the top one first.
#[derive(Clone, Copy)]
pub(crate) struct PairOrder {
    pub(crate) line: OrderLine,
    pub(crate) first: u16,
    pub(crate) second: u16,
    ghost laid: { laid_down line ≡ first ∷ (second ∷ []) },
}
