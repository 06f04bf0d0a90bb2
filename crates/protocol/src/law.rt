// What holds of every run of a cluster.
ghost use Rattle.protocol.specs.Marked.{MarkedRuns};
ghost use Rattle.protocol.specs.Safety.{SafetyLaw, ProposalsLaw};

// Whatever is called, in any order: the lists of commits agree, a kept leader's block lasts once a quorum stands behind
// it, and an elder certificate of a kept leader is committed.
pub fn runs_are_safe()
    ensures { SafetyLaw }
{}

// Later proposals stand on commit points, so that no showing is refused for a conflict.
pub fn proposals_stand()
    ensures { ProposalsLaw }
{}

// The worked runs come out as they should, by the definitions that the calls are promised by.
pub fn marked_runs_hold()
    ensures { MarkedRuns }
{}
