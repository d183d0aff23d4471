// Candidates, one after another.
ghost use Rattle.lattice.specs.Candidates.{CandidatesBySteps, CandidatesAscend, CandidatesAreFewer, MeetsAreCandidates, CandidatesByMembers};

// Steps from one closed code to the next lead through all candidates, in ascending order.
pub fn candidates_follow_steps()
    ensures steps { CandidatesBySteps }
    ensures ascend { CandidatesAscend }
    ensures fewer { CandidatesAreFewer }
    ensures meets { MeetsAreCandidates }
    ensures members { CandidatesByMembers }
{}
