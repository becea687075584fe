//! A folder in memory.

ghost use Rattle.std.specs.Prelude.{◌≡◌, ℕ, List, None, Some, OnErr, OnOk, option_map};
ghost use Rattle.std.specs.BTreeMap.{btree_map_len};
ghost use Rattle.folder_core.specs.Files.{KeepsOthers};
ghost use Rattle.folder_core.specs.MemoryFolders.{files_of, view_of};

use crate::folder::{Folder, FolderFault};
use std::alloc::{AllocError, Global};
use std::collections::BTreeMap;
use std::io::Cursor;

/// Files in memory. Their bytes are known, and an old file is kept if a new one is given up.
#[derive(Drop)]
pub struct MemoryFolder {
    alloc: Global,
    files: BTreeMap<String, Vec<u8>>,
}

impl MemoryFolder {
    /// A folder without files.
    pub fn new(alloc: Global) -> MemoryFolder
        ensures { (name : List ℕ) → files_of result name ≡ None }
    {
        MemoryFolder {
            alloc,
            files: BTreeMap::new(alloc),
        }
    }

    /// Puts a file of these bytes under a name. Err is out of memory.
    pub fn put(&mut self, name: &str, bytes: &[u8]) -> Result<(), AllocError>
        ensures others { KeepsOthers name.now (view_of self.old) (view_of self.new) }
        ensures bytes { OnOk result (files_of self.new name.now ≡ Some bytes.now) }
        ensures refused { OnErr result (files_of self.new name.now ≡ files_of self.old name.now) }
    {
        let name = String::from_str(self.alloc, name)?;
        let mut file = Vec::new(self.alloc);
        file.extend_from_slice(bytes)?;
        self.files.insert(name, file)?;
        Ok(())
    }

    /// The bytes of the file of a name, if there is one.
    pub fn get(&self, name: &str) -> Option<&[u8]>
        ensures { option_map (λ bytes. bytes.now) result ≡ files_of self.now name.now }
    {
        let file = self.files.get(name)?;
        Some(file.as_slice())
    }

    /// How many files there are.
    pub fn count(&self) -> usize
        ensures { result ≡ btree_map_len self.now.files }
    {
        self.files.len()
    }
}

impl Folder for MemoryFolder {
    type In = Cursor<Vec<u8>>;

    type Out = Vec<u8>;

    ghost view = { λ f. view_of f };

    fn open(&mut self, name: &str) -> Result<Cursor<Vec<u8>>, FolderFault> {
        let file = self.files.get(name).ok_or(FolderFault)?;
        match file.clone() {
            Ok(file) => Ok(Cursor::new(file)),
            Err(_) => Err(FolderFault),
        }
    }

    fn create(&mut self, name: &str) -> Result<Vec<u8>, FolderFault> {
        let _ = name;
        Ok(Vec::new(self.alloc))
    }

    fn keep(&mut self, name: &str, out: Vec<u8>) -> Result<(), FolderFault> {
        let Ok(name) = String::from_str(self.alloc, name) else {
            return Err(FolderFault);
        };
        match self.files.insert(name, out) {
            Ok(_) => Ok(()),
            Err(_) => Err(FolderFault),
        }
    }

    fn give_up(&mut self, name: &str, out: Vec<u8>) {
        if self.files.get(name).is_none() {
            let _ = self.keep(name, out);
        }
    }
}
