// What words mean is one thing.
ghost use Rattle.goseed_words.specs.Orders.{OneMeaning};

/// Words mean one order, or one fault, and never both.
pub fn word_laws()
    ensures { OneMeaning }
{}
