// What a list of rows stands for.
ghost use Rattle.std.specs.Prelude.{ℕ, List};
ghost use Rattle.text.specs.declared.line.Line.{Line};
ghost use Rattle.rowtable.specs.declared.row.TableRow.{TableRow as Entry};
ghost use Rattle.unfolding.specs.Rest.{PathsStand, RestReaches};

use grade::grade::Grade;
use grade::theorems::lawful;

// A path over a table of the saturated rows stands for a run into the watch, of the path's grade, and what stands for moves stands for
// those of a run into the watch.
pub fn paths_stand<G: Grade>()
    ensures stand { (ls : List Line) (rows : List (Entry G)) (n : ℕ) → PathsStand G.Grade.own ls rows n }
    ensures reach { (ls : List Line) (rows : List (Entry G)) (n : ℕ) → RestReaches G.Grade.own ls rows n }
{
    lawful::<G>();
}
