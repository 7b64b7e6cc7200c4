// Which byte of a Reply is wrong: the readers of its fields, from left to right.
ghost use Rattle.std.specs.Prelude.{◌≡◌};
ghost use Rattle.client.specs.Replies.{reply_offset};

// How many bytes keep the rules of a Reply: of a malformed one the offset of the first wrong byte, or its length where only bytes are missing.
pub fn offset(frame: &[u8]) -> usize
    ensures { result ≡ reply_offset frame.now }
{
    let version = offsets::number(frame, 0, 4, 32, 32);
    if version < 4 {
        return version;
    }
    let kind = offsets::number(frame, 4, 1, 1, 1);
    if kind < 5 {
        return kind;
    }
    let to = offsets::number(frame, 5, 1, 12, 12);
    if to < 6 {
        return to;
    }
    let view = offsets::number(frame, 6, 1, 0, 0);
    if view < 7 {
        return view;
    }
    let outcome = offsets::free(frame, 7, 20);
    if outcome < 27 {
        return outcome;
    }
    let total = offsets::number(frame, 27, 1, 1, 6);
    if total < 28 {
        return total;
    }
    offsets::free(frame, 28, 8)
}
