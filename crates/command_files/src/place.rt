// The place of a result: what stands there, and where links lead from it.
ghost use Rattle.std.specs.Prelude.{◌≡◌, ◌≤◌, IfOk, IfSome, None, length};
ghost use Rattle.command_files.specs.Files.{Front};
ghost use Rattle.command_files.specs.Places.{front_judged, Spared, is_slash, folder_length, text_at, Led};

use crate::{PATH_ROOM, complain_of, fill_room, or_fail, path_text};
use std::fs::{File, OpenOptions};
use std::io::ErrorKind;
use std::os::unix::fs::MetadataExt;
use std::path::PathBuf;
use std::{fs, io};

// The bits of a mode that say of what kind a file is, and those of a plain file.
const KIND: u32 = 0o170000;

const PLAIN: u32 = 0o100000;

// The system follows so many links at most.
const LINKS: usize = 40;

// What a result may take the place of: nothing, or a plain file with its mode. This is no Option, since where a place is barred there is no Place at
// all, and a None in a None would not say which it is.
#[derive(Clone, Copy)]
pub enum Place {
    Free,
    Plain(u32),
}

// The mode of an open file, its kind among the bits; 0 where it cannot be had.
fn mode_of(file: &File) -> u32 {
    file.metadata().map_or(0, |metadata| metadata.mode())
}

// A plain file by its first bytes and its mode: a register is never replaced.
fn judge_front(front: &[u8; 4], mode: u32) -> Option<Place>
    ensures { result ≡ front_judged front.now mode }
{
    if register_header::is_tagged(front) {
        return None;
    }
    Some(Place::Plain(mode))
}

fn is_plain(mode: u32) -> bool {
    mode & KIND == PLAIN
}

// What is no plain file is not replaced, as a rename would. A line on standard error says why a place is barred.
fn judge_found(rt: HostRuntime, front: &[u8; 4], mode: u32, path: &[u8]) -> Option<Place>
    ensures { Spared front.now result }
{
    if !is_plain(mode) {
        complain_of(rt, path, b": no plain file, so no result takes its place\n");
        return None;
    }
    let place = judge_front(front, mode);
    if place.is_none() {
        complain_of(rt, path, b": a register, and no result takes its place\n");
    }
    place
}

// The first bytes of a plain file. A pipe is not read, since that may wait for ever.
fn read_front(file: &mut File, mode: u32, front: &mut [u8]) -> io::Result<usize>
    ensures { IfOk result (λ n. Front n front.new) }
{
    if !is_plain(mode) {
        return Ok(0);
    }
    fill_room(file, front)
}

fn open_to_update(rt: HostRuntime, path: &[u8]) -> io::Result<File> {
    OpenOptions::new()
        .read(true)
        .write(true)
        .open(&rt, path_text(path)?)
}

// The mode of an open file, and its first bytes if it is a plain one. It is closed before a word is said, since where standard error is closed it
// may have that number.
fn look_into(mut file: File, front: &mut [u8]) -> io::Result<u32> {
    let mode = mode_of(&file);
    read_front(&mut file, mode, front)?;
    Ok(mode)
}

fn judge_file(rt: HostRuntime, file: File, path: &[u8]) -> Option<Place> {
    let mut front = [0u8; 4];
    let mode = or_fail(rt, path, look_into(file, &mut front))?;
    judge_found(rt, &front, mode, path)
}

// What stands at a path that is no link. A file that may not be read and written is not replaced: what cannot be read may be a register.
pub fn judge_place(rt: HostRuntime, path: &[u8]) -> Option<Place>
    ensures { path.now ≡ path.now }
{
    match open_to_update(rt, path) {
        Err(error) if error.kind() == ErrorKind::NotFound => Some(Place::Free),
        opened => judge_file(rt, or_fail(rt, path, opened)?, path),
    }
}

// Where no link stands, it leads nowhere. What else keeps a link from being read is an error.
fn without_link(error: io::Error) -> io::Result<Option<PathBuf>>
    ensures { IfOk result (λ link. link ≡ None) }
{
    let kind = error.kind();
    if kind == ErrorKind::InvalidInput || kind == ErrorKind::NotFound {
        return Ok(None);
    }
    Err(error)
}

// Where the link at a path leads, as it is written there. What is too long for a path is opened later, which tells so.
fn read_link(rt: HostRuntime, path: &[u8]) -> io::Result<Option<PathBuf>> {
    if PATH_ROOM <= path.len() {
        return Ok(None);
    }
    match fs::read_link(&rt, path_text(path)?) {
        Ok(link) => Ok(Some(link)),
        Err(error) => without_link(error),
    }
}

// How much of a path names its folder, with the slash.
fn folder_length(path: &[u8]) -> usize
    ensures { result ≡ folder_length path.now (length path.now) }
{
    path.iter()
        .rposition(|byte| *byte == b'/')
        .map_or(0, |slash| slash + 1)
}

// Whether a path begins at the root.
fn is_rooted(path: &[u8]) -> bool
    ensures { result ≡ is_slash path.now 0 }
{
    path.starts_with(b"/")
}

// Where the text of a link goes in the link's own path.
fn text_at(text: &[u8], path: &[u8]) -> usize
    ensures { result ≡ text_at text.now path.now (length path.now) }
{
    if is_rooted(text) {
        0
    } else {
        folder_length(path)
    }
}

// Puts the text of a link into the link's own path, the first n bytes of its room. The path then is the one that the link leads to, so long as is
// said, or as it was if there is no room for that one.
fn put_link(text: &[u8], room: &mut [u8], n: usize) -> Option<usize>
    requires { n ≤ length room.old }
    ensures { Led text.now room.old n result room.new }
{
    let at = text_at(text, &room[..n]);
    if room.len() - at <= text.len() {
        return None;
    }
    fields::put_bytes(room, at, text);
    Some(at + text.len())
}

// Puts in the place of a path, the first n bytes of its room, the one to which links lead from it, and says how long that is.
pub fn follow_links(rt: HostRuntime, room: &mut [u8], n: usize) -> Option<usize>
    requires { n ≤ length room.old }
    ensures { IfSome result (λ m. Front m room.new) }
{
    let mut end = n;
    for _ in 0..=LINKS {
        let link = read_link(rt, &room[..end]);
        let Some(link) = or_fail(rt, &room[..end], link)? else {
            return Some(end);
        };
        let Some(led) = put_link(link.as_str().as_bytes(), room, end) else {
            complain_of(rt, &room[..end], b": a link to a path that is too long\n");
            return None;
        };
        end = led;
    }
    complain_of(rt, &room[..end], b": too many links\n");
    None
}
