// Words, where they are so many.
ghost use Rattle.std.specs.Prelude.{◌≡◌, ◌≢◌, ◌∷◌, [], length, IfSome, IfNone};
ghost use Rattle.goseed_words.specs.Orders.{texts};

/// The words, where they are two.
pub(crate) fn two<'w>(words: &'w [String]) -> Option<(&'w str, &'w str)>
    ensures found { IfSome result (λ two. texts words.now ≡ two.0.now ∷ two.1.now ∷ []) }
    ensures none { IfNone result (length words.now ≢ 2) }
{
    let [first, second] = words else {
        return None;
    };
    Some((first.as_str(), second.as_str()))
}

/// The words, where they are three.
pub(crate) fn three<'w>(words: &'w [String]) -> Option<(&'w str, &'w str, &'w str)>
    ensures found { IfSome result (λ three. texts words.now ≡ three.0.now ∷ three.1.now ∷ three.2.now ∷ []) }
    ensures none { IfNone result (length words.now ≢ 3) }
{
    let [first, second, third] = words else {
        return None;
    };
    Some((first.as_str(), second.as_str(), third.as_str()))
}

/// The words, where they are four.
pub(crate) fn four<'w>(words: &'w [String]) -> Option<(&'w str, &'w str, &'w str, &'w str)>
    ensures found { IfSome result (λ four. texts words.now ≡ four.0.now ∷ four.1.now ∷ four.2.now ∷ four.3.now ∷ []) }
    ensures none { IfNone result (length words.now ≢ 4) }
{
    let [first, second, third, fourth] = words else {
        return None;
    };
    Some((
        first.as_str(),
        second.as_str(),
        third.as_str(),
        fourth.as_str(),
    ))
}

/// The words, where they are five.
pub(crate) fn five<'w>(words: &'w [String]) -> Option<(&'w str, &'w str, &'w str, &'w str, &'w str)>
    ensures found { IfSome result (λ five. texts words.now ≡ five.0.now ∷ five.1.now ∷ five.2.now ∷ five.3.now ∷ five.4.now ∷ []) }
    ensures none { IfNone result (length words.now ≢ 5) }
{
    let [first, second, third, fourth, fifth] = words else {
        return None;
    };
    Some((
        first.as_str(),
        second.as_str(),
        third.as_str(),
        fourth.as_str(),
        fifth.as_str(),
    ))
}

/// The words, where they are seven.
pub(crate) fn seven<'w>(
    words: &'w [String],
) -> Option<
    (
        &'w str,
        &'w str,
        &'w str,
        &'w str,
        &'w str,
        &'w str,
        &'w str,
    ),
>
    ensures found { IfSome result (λ seven. texts words.now ≡ seven.0.now ∷ seven.1.now ∷ seven.2.now ∷ seven.3.now ∷ seven.4.now ∷ seven.5.now ∷ seven.6.now ∷ []) }
    ensures none { IfNone result (length words.now ≢ 7) }
{
    let [first, second, third, fourth, fifth, sixth, seventh] = words else {
        return None;
    };
    Some((
        first.as_str(),
        second.as_str(),
        third.as_str(),
        fourth.as_str(),
        fifth.as_str(),
        sixth.as_str(),
        seventh.as_str(),
    ))
}
