// A result in a file: made beside its place, filled, and put there whole.
ghost use Rattle.std.specs.Prelude.{◌≡◌, ◌+◌, ◌≤◌, IfSome, length};
ghost use Rattle.decimal_write.specs.Digits.{Fronted};
ghost use Rattle.command_files.specs.Files.{Front, beside};

use crate::place::Place;
use crate::{PATH_ROOM, complain_of, or_fail, path_text};
use std::fs::{File, OpenOptions, Permissions};
use std::io::{ErrorKind, Write};
use std::os::unix::fs::PermissionsExt;
use std::{fs, io};

// A path, `.new-`, and a number with the byte behind it.
const NAME_ROOM: usize = PATH_ROOM + 26;

// Names that are tried for a new file, since other commands have theirs there, and those that were killed have left theirs.
const TRIES: u64 = 1000;

// The bits of a mode that say who may read, write and run a file.
const PERMISSIONS: u32 = 0o777;

// A name beside a path, and so in the same folder, from where a rename puts the file in its place at once.
fn put_beside(path: &[u8], number: u64, name: &mut [u8]) -> usize
    requires { length path.now + 26 ≤ length name.old }
    ensures { Fronted name.old (beside path.now number) name.new result }
{
    let mut field = [0u8; 21];
    let n = decimal_write::number_field(number, b'~', &mut field);
    let at = path.len();
    fields::put_bytes(name, 0, path);
    fields::put_bytes(name, at, b".new-");
    fields::put_bytes(name, at + 5, &field[..n]);
    at + 5 + n
}

// A new file with ordinary permissions. No two commands get one file, since a name that is taken is not opened.
fn create(rt: HostRuntime, name: &[u8]) -> io::Result<File> {
    OpenOptions::new()
        .write(true)
        .create_new(true)
        .open(&rt, path_text(name)?)
}

// A new file beside a path, and the length of its name. Where none can be made, a line on standard error says so.
fn create_beside(rt: HostRuntime, path: &[u8], name: &mut [u8]) -> Option<(File, usize)>
    requires { length path.now + 26 ≤ length name.old }
    ensures { IfSome result (λ made. Front made.1 name.new) }
{
    for number in 0..TRIES {
        let n = put_beside(path, number, name);
        match create(rt, &name[..n]) {
            Err(error) if error.kind() == ErrorKind::AlreadyExists => {}
            created => return Some((or_fail(rt, path, created)?, n)),
        }
    }
    complain_of(
        rt,
        path,
        b": a thousand files lie beside it that killed commands left, its name with .new-0~ to .new-999~ behind it; delete them\n",
    );
    None
}

// A result has the permissions of the file that it replaces.
fn keep_mode(file: &File, place: Place) -> io::Result<()> {
    let Place::Plain(mode) = place else {
        return Ok(());
    };
    file.set_permissions(Permissions::from_mode(mode & PERMISSIONS))
}

// Writes, syncs and closes a new file.
fn fill(mut file: File, bytes: &[u8], place: Place) -> io::Result<()> {
    keep_mode(&file, place)?;
    file.write_all(bytes)?;
    file.sync_all()
}

fn put_in_place(rt: HostRuntime, name: &[u8], path: &[u8]) -> io::Result<()> {
    fs::rename(&rt, path_text(name)?, path_text(path)?)
}

// A new file that is not to stay. What keeps it from being removed is not told, since the line of a failure is said before.
fn remove(rt: HostRuntime, name: &[u8]) -> io::Result<()> {
    fs::remove_file(&rt, path_text(name)?)
}

fn fill_in_place(
    rt: HostRuntime,
    file: File,
    bytes: &[u8],
    name: &[u8],
    path: &[u8],
    place: Place,
) -> io::Result<()> {
    fill(file, bytes, place)?;
    put_in_place(rt, name, path)
}

// A result in the place of what stood there, whole or not at all. Where it cannot be put there, a line on standard error says so.
pub fn store(rt: HostRuntime, path: &[u8], place: Place, bytes: &[u8]) -> Option<()>
    requires { length path.now ≤ 4096 }
    ensures { bytes.now ≡ bytes.now }
{
    let mut room = [0u8; NAME_ROOM];
    let (file, n) = create_beside(rt, path, &mut room)?;
    let filled = fill_in_place(rt, file, bytes, &room[..n], path, place);
    let stored = or_fail(rt, path, filled);
    if stored.is_none() {
        let _ = remove(rt, &room[..n]);
    }
    stored
}
