//! Texts as C is given them.
ghost use Rattle.std.specs.Prelude.{◌≡◌, length};
ghost use Rattle.std.specs.Option.{option_copied};
ghost use Rattle.c_door.specs.Telling.{IsPut, IsText, IsMark};

/// Writes as much of a text as there is room for. Answers its length in bytes.
pub(crate) fn put(text: &[u8], room: &mut [u8]) -> usize
    ensures len { result ≡ length text.now }
    ensures put { IsPut text.now room.new }
{
    let n = room.len().min(text.len());
    for i in 0..n {
        room[i] = text[i];
    }
    text.len()
}

/// Does so with a text where there is one. Answers 0 where there is none.
pub(crate) fn put_text(text: Option<&[u8]>, room: &mut [u8]) -> usize
    ensures { IsText (option_copied text.entry) result room.new }
{
    match text {
        Some(text) => put(text, room),
        None => 0,
    }
}

/// Does so with a mark where there is one.
pub(crate) fn put_mark(mark: Option<&[u8]>, room: &mut [u8]) -> Option<u64>
    ensures { IsMark (option_copied mark.entry) result room.new }
{
    match mark {
        Some(name) => Some(put(name, room) as u64),
        None => None,
    }
}
