// Lines in arrays: each line of a kind has the same number of words, and stands at its place among the lines of its kind.
ghost use Rattle.std.specs.Prelude.{◌≡◌, ◌*◌, ◌≤◌, length};
ghost use Rattle.book.specs.Layout.{put_line};

// Line k at its place, where there is room for it; a line past the room is not kept.
pub fn put_line(out: &mut [u32], room: usize, k: u32, line: &[u32])
    requires { room * length line.now ≤ length out.old }
    ensures { out.new ≡ put_line room k line.now out.old }
{
    let i = k as usize;
    if i < room {
        let place = i * line.len();
        out[place..place + line.len()].copy_from_slice(line);
    }
}
