// What holds in every book. Each function stands for a theorem: its contract is what is proved.
ghost use Rattle.model.specs.Laws.{RunsStayOpened, MovesByNumber, NoticesChangePhases, PhasesMeet, LinesAreAll};

#[tactic(auto, using(crate::proofs::Moves::runs_stay_opened))]
pub fn runs_stay_opened()
    ensures { RunsStayOpened }
{}

#[tactic(auto, using(crate::proofs::Moves::moves_by_number))]
pub fn moves_go_by_number()
    ensures { MovesByNumber }
{}

pub fn notices_change_phases()
    ensures change { NoticesChangePhases }
    ensures meet { PhasesMeet }
{}

#[tactic(auto, using(crate::proofs::Lines::lines_are_all))]
pub fn lines_are_all()
    ensures { LinesAreAll }
{}
