// Orders, and why words mean none.
ghost use Rattle.std.specs.Prelude.{◌≡◌, ◌∷◌, ℕ, codes, IfOk, IfErr};
ghost use Rattle.goseed_words.specs.Amounts.{SpellsAmount};
ghost use Rattle.goseed_words.specs.Asked.{IsLawful};
ghost use Rattle.goseed_words.specs.Commands.{ACount, ANumber, Says};
ghost use Rattle.goseed_words.specs.Orders.{asked_of, texts, Means};
ghost use Rattle.seed_text.specs.SetWords.{IsSetWord};

use crate::amount::{Amount, amount_of};
use crate::operands::{five, four, seven, three, two};
use seed_model::limits::MOST_FILES;
use seed_model::read_number;
use seed_text::is_set_word;

/// Why words mean no order.
#[derive(Clone, Copy, Debug, PartialEq, Eq)]
pub enum WordError {
    /// No command has this name and this number of operands.
    Usage,
    /// The word at this place is not spelled as the command wants it, the command being place 1. Each word before it is.
    BadWord { place: u32 },
}

/// A command with its operands.
#[derive(Clone, Copy, Debug)]
pub enum Order<'w> {
    /// Try every set of the files of a recipe.
    Best {
        recipe: &'w str,
        target: Amount,
        slack: Amount,
    },
    /// Sum up what moving a set of the files of a recipe moves.
    Weigh {
        recipe: &'w str,
        set: &'w str,
    },
    /// Judge a certificate by a recipe.
    Check {
        recipe: &'w str,
        certificate: &'w str,
    },
    /// Find the least bytes that a weighted mean of the sets of a node of a recipe replicates.
    Relax {
        recipe: &'w str,
        target: Amount,
        slack: Amount,
        inside: &'w str,
        outside: &'w str,
    },
    /// Search for a plan with at most so many branchings, and write the certificate.
    Plan {
        recipe: &'w str,
        document: &'w str,
        target: Amount,
        slack: Amount,
        nodes: u32,
    },
    /// The same with files that must go and files that must stay.
    Pinned {
        recipe: &'w str,
        document: &'w str,
        target: Amount,
        slack: Amount,
        nodes: u32,
        go: &'w str,
        stay: &'w str,
    },
    /// Draw a recipe of so many files from a number, plan with it, and judge the certificate.
    Gen {
        number: u32,
        files: u32,
    },
    /// Find a set of the files of a recipe greedily.
    Greedy {
        recipe: &'w str,
        target: Amount,
        slack: Amount,
    },
    /// Compare a certificate's bound with what a set replicates that is found greedily.
    Gap {
        recipe: &'w str,
        certificate: &'w str,
    },
    /// Write a recipe with its files by falling shared bytes.
    Sort {
        recipe: &'w str,
        out: &'w str,
    },
    /// Take a certificate's plan over to a recipe that is the same but for the order of its files and chunks.
    Carry {
        recipe: &'w str,
        document: &'w str,
        other: &'w str,
        out: &'w str,
    },
}

/// The most branchings of a search, and the greatest number that a recipe is drawn from.
const MOST_NUMBER: u32 = 65_535;

/// The order that words mean, the first word being the command. It takes no memory.
pub fn order_of<'w>(words: &'w [String]) -> Result<Order<'w>, WordError>
    ensures meaning { Means (texts words.now) result }
    ensures lawful { IfOk result (λ order. IsLawful (asked_of order)) }
{
    let Some((command, operands)) = words.split_first() else {
        return Err(WordError::Usage);
    };
    match command.as_str() {
        "best" => best_of(operands),
        "weigh" => weigh_of(operands),
        "check" => check_of(operands),
        "relax" => relax_of(operands),
        "plan" => plan_of(operands),
        "pinned" => pinned_of(operands),
        "gen" => gen_of(operands),
        "greedy" => greedy_of(operands),
        "gap" => gap_of(operands),
        "sort" => sort_of(operands),
        "carry" => carry_of(operands),
        _ => Err(WordError::Usage),
    }
}

/// The order `best` with these operands.
fn best_of<'w>(operands: &'w [String]) -> Result<Order<'w>, WordError>
    ensures meaning { Means (codes "best" ∷ texts operands.now) result }
    ensures lawful { IfOk result (λ order. IsLawful (asked_of order)) }
{
    let Some((recipe, target, slack)) = three(operands) else {
        return Err(WordError::Usage);
    };
    let target = amount_at(3, target)?;
    let slack = amount_at(4, slack)?;
    Ok(Order::Best {
        recipe,
        target,
        slack,
    })
}

/// The order `weigh` with these operands. Which sets a recipe has, its text tells.
fn weigh_of<'w>(operands: &'w [String]) -> Result<Order<'w>, WordError>
    ensures meaning { Means (codes "weigh" ∷ texts operands.now) result }
    ensures lawful { IfOk result (λ order. IsLawful (asked_of order)) }
{
    let Some((recipe, set)) = two(operands) else {
        return Err(WordError::Usage);
    };
    let set = set_at(3, set)?;
    Ok(Order::Weigh { recipe, set })
}

/// The order `check` with these operands.
fn check_of<'w>(operands: &'w [String]) -> Result<Order<'w>, WordError>
    ensures meaning { Means (codes "check" ∷ texts operands.now) result }
    ensures lawful { IfOk result (λ order. IsLawful (asked_of order)) }
{
    let Some((recipe, certificate)) = two(operands) else {
        return Err(WordError::Usage);
    };
    Ok(Order::Check {
        recipe,
        certificate,
    })
}

/// The order `relax` with these operands. Which nodes a recipe has, its text tells.
fn relax_of<'w>(operands: &'w [String]) -> Result<Order<'w>, WordError>
    ensures meaning { Means (codes "relax" ∷ texts operands.now) result }
    ensures lawful { IfOk result (λ order. IsLawful (asked_of order)) }
{
    let Some((recipe, target, slack, inside, outside)) = five(operands) else {
        return Err(WordError::Usage);
    };
    let target = amount_at(3, target)?;
    let slack = amount_at(4, slack)?;
    let inside = set_at(5, inside)?;
    let outside = set_at(6, outside)?;
    Ok(Order::Relax {
        recipe,
        target,
        slack,
        inside,
        outside,
    })
}

/// The order `plan` with these operands. A certificate is not written over its recipe.
fn plan_of<'w>(operands: &'w [String]) -> Result<Order<'w>, WordError>
    ensures meaning { Means (codes "plan" ∷ texts operands.now) result }
    ensures lawful { IfOk result (λ order. IsLawful (asked_of order)) }
{
    let Some((recipe, document, target, slack, nodes)) = five(operands) else {
        return Err(WordError::Usage);
    };
    if recipe == document {
        return Err(WordError::Usage);
    }
    let target = amount_at(4, target)?;
    let slack = amount_at(5, slack)?;
    let nodes = number_at(6, nodes)?;
    Ok(Order::Plan {
        recipe,
        document,
        target,
        slack,
        nodes,
    })
}

/// The order `pinned` with these operands. Which files a recipe has, its text tells.
fn pinned_of<'w>(operands: &'w [String]) -> Result<Order<'w>, WordError>
    ensures meaning { Means (codes "pinned" ∷ texts operands.now) result }
    ensures lawful { IfOk result (λ order. IsLawful (asked_of order)) }
{
    let Some((recipe, document, target, slack, nodes, go, stay)) = seven(operands) else {
        return Err(WordError::Usage);
    };
    if recipe == document {
        return Err(WordError::Usage);
    }
    let target = amount_at(4, target)?;
    let slack = amount_at(5, slack)?;
    let nodes = number_at(6, nodes)?;
    let go = set_at(7, go)?;
    let stay = set_at(8, stay)?;
    Ok(Order::Pinned {
        recipe,
        document,
        target,
        slack,
        nodes,
        go,
        stay,
    })
}

/// The order `gen` with these operands.
fn gen_of<'w>(operands: &'w [String]) -> Result<Order<'w>, WordError>
    ensures meaning { Means (codes "gen" ∷ texts operands.now) result }
    ensures lawful { IfOk result (λ order. IsLawful (asked_of order)) }
{
    let Some((number, files)) = two(operands) else {
        return Err(WordError::Usage);
    };
    let number = number_at(2, number)?;
    let files = count_at(3, files)?;
    Ok(Order::Gen { number, files })
}

/// The order `greedy` with these operands.
fn greedy_of<'w>(operands: &'w [String]) -> Result<Order<'w>, WordError>
    ensures meaning { Means (codes "greedy" ∷ texts operands.now) result }
    ensures lawful { IfOk result (λ order. IsLawful (asked_of order)) }
{
    let Some((recipe, target, slack)) = three(operands) else {
        return Err(WordError::Usage);
    };
    let target = amount_at(3, target)?;
    let slack = amount_at(4, slack)?;
    Ok(Order::Greedy {
        recipe,
        target,
        slack,
    })
}

/// The order `gap` with these operands.
fn gap_of<'w>(operands: &'w [String]) -> Result<Order<'w>, WordError>
    ensures meaning { Means (codes "gap" ∷ texts operands.now) result }
    ensures lawful { IfOk result (λ order. IsLawful (asked_of order)) }
{
    let Some((recipe, certificate)) = two(operands) else {
        return Err(WordError::Usage);
    };
    Ok(Order::Gap {
        recipe,
        certificate,
    })
}

/// The order `sort` with these operands. A recipe is not written over itself.
fn sort_of<'w>(operands: &'w [String]) -> Result<Order<'w>, WordError>
    ensures meaning { Means (codes "sort" ∷ texts operands.now) result }
    ensures lawful { IfOk result (λ order. IsLawful (asked_of order)) }
{
    let Some((recipe, out)) = two(operands) else {
        return Err(WordError::Usage);
    };
    if recipe == out {
        return Err(WordError::Usage);
    }
    Ok(Order::Sort { recipe, out })
}

/// The order `carry` with these operands. A certificate is written over none of the names that are read.
fn carry_of<'w>(operands: &'w [String]) -> Result<Order<'w>, WordError>
    ensures meaning { Means (codes "carry" ∷ texts operands.now) result }
    ensures lawful { IfOk result (λ order. IsLawful (asked_of order)) }
{
    let Some((recipe, document, other, out)) = four(operands) else {
        return Err(WordError::Usage);
    };
    if recipe == out {
        return Err(WordError::Usage);
    }
    if document == out {
        return Err(WordError::Usage);
    }
    if other == out {
        return Err(WordError::Usage);
    }
    Ok(Order::Carry {
        recipe,
        document,
        other,
        out,
    })
}

/// The number that the word at a place spells: of branchings, or one to draw from.
fn number_at(place: u32, word: &str) -> Result<u32, WordError>
    ensures found { IfOk result (λ number. Says (ANumber 65535) word.now number) }
    ensures error { IfErr result (λ error. error ≡ WordError.BadWord place) }
    ensures none { IfErr result (λ error. (number : ℕ) → ¬ Says (ANumber 65535) word.now number) }
{
    match read_number(word.as_bytes(), MOST_NUMBER as u128) {
        Some(number) => Ok(number as u32),
        None => Err(WordError::BadWord { place }),
    }
}

/// The count of files that the word at a place spells.
fn count_at(place: u32, word: &str) -> Result<u32, WordError>
    ensures found { IfOk result (λ count. Says (ACount 16383) word.now count) }
    ensures error { IfErr result (λ error. error ≡ WordError.BadWord place) }
    ensures none { IfErr result (λ error. (count : ℕ) → ¬ Says (ACount 16383) word.now count) }
{
    match read_number(word.as_bytes(), MOST_FILES as u128) {
        Some(count) if count != 0 => Ok(count as u32),
        _ => Err(WordError::BadWord { place }),
    }
}

/// The amount that the word at a place spells.
fn amount_at(place: u32, word: &str) -> Result<Amount, WordError>
    ensures found { IfOk result (λ amount. SpellsAmount word.now amount) }
    ensures error { IfErr result (λ error. error ≡ WordError.BadWord place) }
    ensures none { IfErr result (λ error. (amount : Amount) → ¬ SpellsAmount word.now amount) }
{
    match amount_of(word) {
        Some(amount) => Ok(amount),
        None => Err(WordError::BadWord { place }),
    }
}

/// The word at a place, where it may be the text of a set.
fn set_at<'w>(place: u32, word: &'w str) -> Result<&'w str, WordError>
    ensures found { IfOk result (λ set. (set.now ≡ word.now) × IsSetWord word.now) }
    ensures error { IfErr result (λ error. error ≡ WordError.BadWord place) }
    ensures none { IfErr result (λ error. ¬ IsSetWord word.now) }
{
    if is_set_word(word.as_bytes()) {
        return Ok(word);
    }
    Err(WordError::BadWord { place })
}
