// Laws of contexts, each on a call of its own.
ghost use Rattle.contexts.specs.Laws.{BooksComeBack};

// A relation that is written down as a book opens, and means the same.
pub fn books_come_back()
    ensures { BooksComeBack }
{}
