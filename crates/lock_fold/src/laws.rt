// What holds of every lock.
ghost use Rattle.lock_fold.specs.Rising.{TokensRise};

/// Where the stamps of nodes rise, the tokens of those who wait rise: each later holder has a greater one.
pub fn tokens_rise()
    ensures { TokensRise }
{}
