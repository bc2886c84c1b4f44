//! A file that is kept in a folder.

use std::os::unix::fs::PermissionsExt;
use std::rt::Files;
use std::time::{SystemTime, UNIX_EPOCH};
use std::{fs, io};
use wc_edge::FileKeeper;
use wc_outside::Keeper;

/// A folder that no other run has.
fn new_folder(rt: &HostRuntime) -> io::Result<String> {
    let moment = SystemTime::now(rt)?
        .duration_since(UNIX_EPOCH)
        .map_or(0, |since| since.as_nanos());
    let folder = format!(in rt.alloc(); "/tmp/wc_edge_keeper_{moment}")?;
    fs::create_dir_all(rt, folder.as_str())?;
    Ok(folder)
}

/// Shows what the file has.
fn show_contents<R: Files>(rt: &HostRuntime, keeper: &mut FileKeeper<'_, R>) -> io::Result<()> {
    match keeper.read_all(rt.alloc()) {
        Ok(text) => print!(rt; "[{text}]\n"),
        Err(_) => print!(rt; "failed\n"),
    }
}

fn replace<R: Files>(
    rt: &HostRuntime,
    keeper: &mut FileKeeper<'_, R>,
    text: &[u8],
) -> io::Result<()> {
    let is_replaced = keeper.replace(text).is_ok();
    print!(rt; "replaced: {is_replaced} ")?;
    show_contents(rt, keeper)
}

fn replace_twice(rt: &HostRuntime, folder: &str) -> io::Result<()> {
    let mut keeper = FileKeeper::new(rt, rt.alloc(), folder)?;
    show_contents(rt, &mut keeper)?;
    replace(rt, &mut keeper, b"look\n")?;
    replace(rt, &mut keeper, b"relay\n")
}

/// Shows who may read and write the file.
fn show_mode(rt: &HostRuntime, folder: &str) -> io::Result<()> {
    let path = format!(in rt.alloc(); "{folder}/weechat.conf")?;
    let mode = fs::metadata(rt, path.as_str())?.permissions().mode() & 0o777;
    print!(rt; "mode {mode:o}\n")
}

fn keep_in_no_folder(rt: &HostRuntime) -> io::Result<()> {
    let mut keeper = FileKeeper::new(rt, rt.alloc(), "/tmp/wc_edge_no_such_folder")?;
    print!(rt; "read in a folder that is not there: ")?;
    show_contents(rt, &mut keeper)?;
    let is_replaced = keeper.replace(b"x").is_ok();
    print!(rt; "replaced in a folder that is not there: {is_replaced}\n")
}

/// What is not a folder has no file that could be read as empty.
fn keep_in_a_file(rt: &HostRuntime) -> io::Result<()> {
    let mut keeper = FileKeeper::new(rt, rt.alloc(), "/dev/null")?;
    print!(rt; "read in what is no folder: ")?;
    show_contents(rt, &mut keeper)
}

pub fn play(rt: &HostRuntime) -> io::Result<()> {
    print!(rt; "== the keeper replaces its file\n")?;
    let folder = new_folder(rt)?;
    replace_twice(rt, folder.as_str())?;
    show_mode(rt, folder.as_str())?;
    fs::remove_dir_all(rt, folder.as_str())?;
    keep_in_no_folder(rt)?;
    keep_in_a_file(rt)
}
