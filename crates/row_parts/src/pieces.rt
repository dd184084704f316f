// Texts cut at separators.
ghost use Rattle.std.specs.Prelude.{◌≡◌, ◌<◌, ◌∷◌, [], MatchOption, length, option_map, option_copied, IfSome};
ghost use Rattle.row_parts.specs.Pieces.{begins, ends, after, cut, cut_last, pieces};

/// Whether a text begins with another.
pub fn begins(text: &str, front: &str) -> bool
    ensures { result ≡ begins text.now front.now }
{
    text.starts_with(front)
}

/// Whether a text ends with another.
pub fn ends(text: &str, back: &str) -> bool
    ensures { result ≡ ends text.now back.now }
{
    text.ends_with(back)
}

/// What follows the text that another begins with.
pub fn after<'a>(text: &'a str, front: &str) -> Option<&'a str>
    ensures { option_copied result ≡ after front.now text.now }
{
    text.strip_prefix(front)
}

/// What comes before and after the first separator.
pub fn cut<'a>(text: &'a str, separator: &str) -> Option<(&'a str, &'a str)>
    requires { 0 < length separator.now }
    ensures sides { option_map (λ parts. (parts.0.now, parts.1.now)) result
        ≡ cut separator.now text.now }
    ensures pieces { MatchOption result (pieces separator.now text.now ≡ text.now ∷ [])
        (λ parts. pieces separator.now text.now
        ≡ parts.0.now ∷ pieces separator.now parts.1.now) }
    ensures shorter { IfSome result (λ parts. length parts.1.now < length text.now) }
{
    text.split_once(separator)
}

/// What comes before and after the last separator.
pub fn cut_last<'a>(text: &'a str, separator: &str) -> Option<(&'a str, &'a str)>
    requires { 0 < length separator.now }
    ensures { option_map (λ parts. (parts.0.now, parts.1.now)) result
        ≡ cut_last separator.now text.now }
{
    text.rsplit_once(separator)
}
