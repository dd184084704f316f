// The texts of files that were read.
ghost use Rattle.std.specs.Prelude.{◌≡◌, [], get_or, slice_get, map, option_map};
ghost use Rattle.plan_serving.specs.Places.{held_bytes};

use plan_serving::Named;

/// The first text.
pub(crate) fn first_text(texts: &[Named]) -> &[u8]
    ensures { result.now ≡ get_or (map held_bytes texts.now) 0 [] }
{
    let none = b"".as_slice();
    match texts {
        [] => none,
        [text, ..] => text.bytes.as_slice(),
    }
}

/// The second text, if there is one.
pub(crate) fn second_text(texts: &[Named]) -> Option<&[u8]>
    ensures { option_map (λ text. text.now) result ≡ slice_get (map held_bytes texts.now) 1 }
{
    match texts {
        [_image, state, ..] => Some(state.bytes.as_slice()),
        _ => None,
    }
}
