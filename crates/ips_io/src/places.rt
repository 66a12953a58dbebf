//! Files one after another in a buffer: the search for a name, and the change of a content.

ghost use Rattle.std.specs.Prelude.{◌≡◌, ◌↔◌, ◌+◌, ◌-◌, ◌<◌, ◌≤◌, ◌++◌, ◌∷◌, [], length, vec_len, vec_capacity, IsTrue};
ghost use Rattle.std.specs.Bool.{OnTrue, OnFalse};
ghost use Rattle.ips_io.specs.Places.{edited, place_of, resized, total};

/// The lengths of a name and of its content.
#[derive(Clone, Copy)]
pub(crate) struct Lengths {
    pub(crate) name: usize,
    pub(crate) content: usize,
}

/// A part of a buffer: where it starts, and how many bytes it has.
#[derive(Clone, Copy)]
pub(crate) struct Part {
    pub(crate) start: usize,
    pub(crate) length: usize,
}

/// Where a file stands: its number in the table, and its content in the buffer.
#[derive(Clone, Copy)]
pub(crate) struct Place {
    pub(crate) index: usize,
    pub(crate) content: Part,
}

/// The first file of a name, among files that fill a buffer one after another.
pub(crate) fn find_place(files: &[Lengths], buffer: &[u8], name: &[u8]) -> Option<Place>
    requires { total files.now ≡ length buffer.now }
    ensures { result ≡ place_of files.now buffer.now name.now }
{
    let mut at = 0;
    for (index, file) in files.iter().enumerate() {
        let start = at + file.name;
        let length = file.content;
        if &buffer[at..start] == name {
            let content = Part { start, length };
            return Some(Place { index, content });
        }
        at = start + length;
    }
    None
}

/// Adds bytes at the end of a buffer that has reserved the room for them.
pub(crate) fn append(buffer: &mut Vec<u8>, bytes: &[u8])
    requires { vec_len buffer.old + length bytes.now ≤ vec_capacity buffer.old }
    ensures bytes { buffer.new.items ≡ buffer.old.items ++ bytes.now }
    ensures room { vec_capacity buffer.old ≤ vec_capacity buffer.new }
{
    match buffer.extend_from_slice(bytes) {
        Ok(()) => {}
        Err(_) => unreachable!(),
    }
}

/// Puts bytes in place of a part of a buffer that has reserved the room for them.
pub(crate) fn replace(buffer: &mut Vec<u8>, part: Part, bytes: &[u8])
    requires within { part.start + part.length ≤ vec_len buffer.old }
    requires room { vec_len buffer.old - part.length + length bytes.now ≤ vec_capacity buffer.old }
    ensures bytes { buffer.new.items ≡ edited buffer.old.items part bytes.now }
    ensures room { vec_capacity buffer.old ≤ vec_capacity buffer.new }
{
    let end = part.start + part.length;
    let after = buffer.len() - end;
    buffer.rotate_left(end);
    buffer.truncate(after + part.start);
    append(buffer, bytes);
    buffer.rotate_left(after);
}

/// Gives a file another content, within a room of that number of bytes. False, and nothing changed, exactly where it does not fit.
pub(crate) fn change(
    files: &mut Vec<Lengths>,
    buffer: &mut Vec<u8>,
    room: u64,
    place: Place,
    bytes: &[u8],
) -> bool
    requires index { place.index < vec_len files.old }
    requires within { place.content.start + place.content.length ≤ vec_len buffer.old }
    requires filled { vec_len buffer.old ≤ room }
    requires reserved { room ≤ vec_capacity buffer.old }
    ensures fits { IsTrue result ↔ (vec_len buffer.old - place.content.length + length bytes.now ≤ room) }
    ensures buffer { OnTrue result (buffer.new.items ≡ edited buffer.old.items place.content bytes.now) }
    ensures files { OnTrue result (files.new.items ≡ resized files.old.items place.index (length bytes.now)) }
    ensures same_buffer { OnFalse result (buffer.new.items ≡ buffer.old.items) }
    ensures same_files { OnFalse result (files.new.items ≡ files.old.items) }
    ensures buffer_room { vec_capacity buffer.old ≤ vec_capacity buffer.new }
    ensures files_room { vec_capacity files.old ≤ vec_capacity files.new }
{
    let others = (buffer.len() - place.content.length) as u64;
    if bytes.len() as u64 > room - others {
        return false;
    }
    replace(buffer, place.content, bytes);
    resize(files.as_mut_slice(), place.index, bytes.len());
    true
}

/// Gives a content another length.
fn resize(files: &mut [Lengths], index: usize, content: usize)
    requires { index < length files.old }
    ensures { files.new ≡ resized files.old index content }
{
    let name = files[index].name;
    files[index] = Lengths { name, content };
}

/// Adds a file behind the others, within a number of files and of bytes. False, and nothing changed, exactly where
/// it does not fit.
pub(crate) fn add(
    files: &mut Vec<Lengths>,
    buffer: &mut Vec<u8>,
    name: &[u8],
    bytes: &[u8],
    most_files: u32,
    room: u64,
) -> bool
    requires listed { vec_len files.old ≤ most_files }
    requires reserved_files { most_files ≤ vec_capacity files.old }
    requires filled { vec_len buffer.old ≤ room }
    requires reserved { room ≤ vec_capacity buffer.old }
    ensures fits { IsTrue result ↔ ((vec_len files.old < most_files) × (vec_len buffer.old + (length name.now + length bytes.now) ≤ room)) }
    ensures buffer { OnTrue result (buffer.new.items ≡ (buffer.old.items ++ name.now) ++ bytes.now) }
    ensures files { OnTrue result (files.new.items ≡ files.old.items ++ record { name = length name.now; content = length bytes.now } ∷
        []) }
    ensures same_buffer { OnFalse result (buffer.new.items ≡ buffer.old.items) }
    ensures same_files { OnFalse result (files.new.items ≡ files.old.items) }
    ensures buffer_room { vec_capacity buffer.old ≤ vec_capacity buffer.new }
    ensures files_room { vec_capacity files.old ≤ vec_capacity files.new }
{
    let free = room - buffer.len() as u64;
    if files.len() as u64 == most_files as u64 {
        return false;
    }
    if name.len() as u64 > free || bytes.len() as u64 > free - name.len() as u64 {
        return false;
    }
    append(buffer, name);
    append(buffer, bytes);
    match files.push(Lengths {
        name: name.len(),
        content: bytes.len(),
    }) {
        Ok(()) => true,
        Err(_) => unreachable!(),
    }
}
