// What is proved of the calls together.

ghost use Rattle.fund.specs.Laws.{BooksStay};

/// The theorem that every call leaves a book where it found one, and that making leaves one whatever it found.
pub fn books_stay()
    ensures { BooksStay }
{}
