ghost use Rattle.std.specs.Prelude.{◌≡◌, ◌∷◌, ◌==◌};
ghost use Rattle.std.specs.List.{slice_split};
ghost use Rattle.cept_words.specs.Cut.{IsCut};
ghost use Rattle.cept_words.specs.inside.Cut.{parts_after};

/// What stands before the first of these bytes that is the mark, and what stands after it.
pub(crate) fn cut(bytes: &[u8], mark: u8) -> (&[u8], Option<&[u8]>)
    ensures parts { slice_split (λ a. a == mark) bytes.now
        ≡ result.0.now ∷ parts_after mark result.1 }
    ensures places { IsCut bytes.now result.0.now result.1 }
{
    for index in 0..bytes.len() {
        if bytes[index] == mark {
            return (&bytes[..index], Some(&bytes[index + 1..]));
        }
    }
    (bytes, None)
}
