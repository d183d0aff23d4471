// Laws of listings, each on a call of its own.
ghost use Rattle.listings.specs.Laws.{LinksAreTheLinked, WiderSetsLinkLess, LinkedArePresent, LinkedAreInLinks, CandidatesAreLinked, PagesJoin, WideningExtends, WideningGrows, WideningKeepsLinks, WideningSettles, WideningWithoutLinks, CandidatesByCodes, CandidatesAscend, MeetsAreCandidates, FieldsFit, RecordsAreBytes, RepliesKeep, KeptSettles, KeptAlike, EndedStays};
ghost use Rattle.listings.specs.Small.{SmallRegisterIsListed, SmallRegisterIsAnswered};

// Who is linked by a set.
pub fn links_are_the_linked()
    ensures { LinksAreTheLinked }
{}

// A wider set links less, and what is counted of a set agrees with its links.
pub fn links_and_counts_agree()
    ensures wider { WiderSetsLinkLess }
    ensures present { LinkedArePresent }
    ensures among { LinkedAreInLinks }
    ensures linked { CandidatesAreLinked }
{}

// A page and the next one leave no link out and give none twice.
pub fn pages_join()
    ensures { PagesJoin }
{}

// Widening is a closure: it extends its set, grows with it, keeps its links, and settles at once.
pub fn widening_is_closure()
    ensures extends { WideningExtends }
    ensures grows { WideningGrows }
    ensures links { WideningKeepsLinks }
    ensures settles { WideningSettles }
    ensures unlinked { WideningWithoutLinks }
{}

// Which codes the present pairs have settles the candidates; they ascend, and meet in candidates.
pub fn candidates_are_of_codes()
    ensures codes { CandidatesByCodes }
    ensures ascend { CandidatesAscend }
    ensures meets { MeetsAreCandidates }
{}

// What is told of a candidate fits its record.
pub fn records_fit()
    ensures fields { FieldsFit }
    ensures bytes { RecordsAreBytes }
{}

// Widenings, candidates and counts of a small register, and the answers to calls on it.
pub fn small_register_is_listed()
    ensures listed { SmallRegisterIsListed }
    ensures answered { SmallRegisterIsAnswered }
{}

// Answers by the relation are what a run owes, and there are no others.
pub fn replies_keep_to_the_relation()
    ensures keep { RepliesKeep }
    ensures settled { KeptSettles }
    ensures alike { KeptAlike }
    ensures stays { EndedStays }
{}
