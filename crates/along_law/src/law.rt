ghost use Rattle.along_law.specs.Laws.{MomentsStand, RunsStayTogether};

/// For a well-made unit and every run of its trees there is one run of its graphs: moves that lead
/// from the first configuration to one that stands for the run's last. After each choice the moves so
/// far lead to a configuration that stands for the trees there. The labels of a thread among the
/// moves are its walk, and it has no other.
pub fn runs_stay_together()
    ensures runs { RunsStayTogether }
    ensures moments { MomentsStand }
{}
