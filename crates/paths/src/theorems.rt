// What a path stands for that was laid out over rows with right reasons.
ghost use Rattle.std.specs.Prelude.{ℕ, List};
ghost use Rattle.text.specs.declared.line.Line.{Line};
ghost use Rattle.rowtable.specs.declared.row.TableRow.{TableRow as Entry};
ghost use Rattle.paths.specs.Runs.{PathsStand, StandsReach};

use grade::grade::Grade;
use grade::theorems::lawful;

// Such a path stands for a run into the watch, of the path's grade: its moves are those that its rows unfold to.
pub fn paths_stand<G: Grade>()
    ensures stand { (ls : List Line) (Fs : List ℕ) (rows : List (Entry G)) (n : ℕ) → PathsStand G.Grade.own ls Fs rows n }
    ensures reach { (ls : List Line) (Fs : List ℕ) (rows : List (Entry G)) (n : ℕ) → StandsReach G.Grade.own ls Fs rows n }
{
    lawful::<G>();
}
