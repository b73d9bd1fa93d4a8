ghost use Rattle.std.specs.Prelude.{◌≡◌, ◌≤◌, true, false, IfSome, OnSome, OnOk, OnErr};
ghost use Rattle.ah_outside.specs.Counts.{one_more};
ghost use Rattle.ah_outside.specs.FolderShelf.{FolderState, IsFileName};

use crate::{Failed, Shelf};
use std::fs::{self, File};
use std::io::Write;
use std::marker::Model;
use std::rt::Files;
use std::str;

/// A shelf whose entries are files of the current folder. It tells none of their bytes.
#[derive(Drop)]
pub struct FolderShelf<'a, R: Files> {
    files: &'a R,
    unfinished: Option<R::File>,
    faults: u64,
}

impl<'a, R: Files> Model for FolderShelf<'a, R> {
    ghost use Rattle.std.specs.Prelude.{is_some};
    ghost use Rattle.ah_outside.specs.FolderShelf.{FolderState};

    ghost Value = { FolderState };

    ghost view = { λ s. record { unfinished = is_some s.unfinished; faults = s.faults } };
}

/// The name as text, where a file of the current folder can have it.
fn file_name(name: &[u8]) -> Option<&str>
    ensures { IfSome result (λ text. (text.now ≡ name.now) × IsFileName name.now) }
{
    if name.contains(&b'/') || matches!(name, b"" | b"." | b"..") {
        return None;
    }
    str::from_utf8(name).ok()
}

/// Makes a file of this name, in place of a file or a link that stands there. No link is followed: `exists`
/// looks through one, and then the link itself is removed, and a file is only made where nothing stands.
fn new_file<R: Files>(files: &R, name: &[u8]) -> Option<R::File>
    ensures { OnSome result (IsFileName name.now) }
{
    let name = file_name(name)?;
    if fs::exists(files, name).ok()? {
        fs::remove_file(files, name).ok()?;
    }
    File::create_new(files, name).ok()
}

impl<'a, R: Files> FolderShelf<'a, R> {
    /// A shelf over the files of the current folder, with no unfinished entry and no faults yet.
    pub fn new(files: &'a R) -> FolderShelf<'a, R>
        ensures { result ≡ record { unfinished = false; faults = 0 } }
    {
        FolderShelf {
            files,
            unfinished: None,
            faults: 0,
        }
    }

    fn fault(&mut self) -> Failed
        ensures counted { self.new ≡ record { unfinished = self.old.unfinished; faults = one_more self.old.faults } }
        ensures never_falls { self.old.faults ≤ self.new.faults }
    {
        self.faults = self.faults.saturating_add(1);
        Failed
    }
}

impl<R: Files> Shelf for FolderShelf<'_, R> {
    ghost use Rattle.std.specs.Prelude.{None};
    ghost use Rattle.ah_outside.specs.Outside.{Shelved};

    ghost shelved = { λ s. record { entries = None; unfinished = s.unfinished } };

    ghost fault_count = { λ s. s.faults };

    ghost last_told = { λ _. tt };

    fn faults(&self) -> u64 {
        self.faults
    }

    /// Makes a file of this name. Fails where the name isn't that of a file in the current folder, where
    /// something stands there that can't be removed, and where the system doesn't make the file.
    fn begin(&mut self, name: &[u8]) -> Result<(), Failed>
        requires { self.old.unfinished ≡ false }
        ensures begun { OnOk result (self.new.unfinished ≡ true) }
        ensures named { OnOk result (IsFileName name.now) }
        ensures failed { OnErr result (self.new.unfinished ≡ false) }

        ensures no_fault { OnOk result (self.new.faults ≡ self.old.faults) }
        ensures fault { OnErr result (self.new.faults ≡ one_more self.old.faults) }
        ensures never_falls { self.old.faults ≤ self.new.faults }
    {
        match new_file(self.files, name) {
            Some(file) => {
                self.unfinished = Some(file);
                Ok(())
            }
            None => Err(self.fault()),
        }
    }

    /// Writes the whole piece to the file. Fails where the system does, or takes nothing more.
    fn put(&mut self, piece: &[u8]) -> Result<(), Failed>
        requires { self.old.unfinished ≡ true }
        ensures unfinished { self.new.unfinished ≡ true }

        ensures no_fault { OnOk result (self.new.faults ≡ self.old.faults) }
        ensures fault { OnErr result (self.new.faults ≡ one_more self.old.faults) }
        ensures never_falls { self.old.faults ≤ self.new.faults }
    {
        if let Some(file) = &mut self.unfinished {
            if file.write_all(piece).is_err() {
                return Err(self.fault());
            }
        }
        Ok(())
    }

    /// Closes the file. Fails where it can't be flushed, and then leaves it open.
    fn finish(&mut self) -> Result<(), Failed>
        requires { self.old.unfinished ≡ true }
        ensures closed { OnOk result (self.new.unfinished ≡ false) }
        ensures failed { OnErr result (self.new.unfinished ≡ true) }

        ensures no_fault { OnOk result (self.new.faults ≡ self.old.faults) }
        ensures fault { OnErr result (self.new.faults ≡ one_more self.old.faults) }
        ensures never_falls { self.old.faults ≤ self.new.faults }
    {
        if let Some(file) = &mut self.unfinished {
            if file.flush().is_err() {
                return Err(self.fault());
            }
        }
        self.unfinished = None;
        Ok(())
    }
}
