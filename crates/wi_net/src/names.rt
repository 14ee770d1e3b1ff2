//! Routers, labels, interfaces and risk groups are numbers in all but texts: a name is looked up once, by hashing, and kept
//! once.
ghost use Rattle.std.specs.Prelude.{◌≡◌, ◌<◌, ◌≤◌, ◌+◌, string_bytes, ◌^◌, ◌++◌, ◌∷◌, [], None, length, slice_get, Some, true, IfOk, IfSome, OnOk, OnErr};
ghost use Rattle.wi_net.specs.Names.{place, with_name, number_of, are_names};

use indexmap::IndexSet;
use std::alloc::Global;
use std::marker::Model;
use wi_base::NoMemory;

/// A list of names, each of which is found by its text.
#[derive(Drop)]
pub struct Names {
    texts: IndexSet<String>,
}

impl Model for Names {
    ghost use Rattle.std.specs.Prelude.{List, ℕ, map, string_bytes};
    ghost use Rattle.indexmap.specs.IndexSet.{spare};

    // The names, and how many more there is room for.
    ghost Value = { List (List ℕ) × ℕ };

    ghost view = { λ n. (map string_bytes n.texts.keys, spare n.texts) };
}

impl Names {
    /// No names.
    pub fn new(alloc: Global) -> Names
        ensures { result.0 ≡ [] }
    {
        Names {
            texts: IndexSet::new(alloc),
        }
    }

    /// How many names there are.
    pub fn len(&self) -> usize
        ensures len { result ≡ length self.now.0 }
        ensures small { result < 2 ^ 63 }
    {
        self.texts.len()
    }

    /// The number of a name.
    pub fn find(&self, name: &str) -> Option<usize>
        ensures value { result ≡ place self.now.0 name.now }
        ensures within { IfSome result (λ i. i < length self.now.0) }
    {
        self.texts.get_index_of(name)
    }

    /// The name of a number.
    pub fn get(&self, number: usize) -> &str
        requires { number < length self.now.0 }
        ensures { slice_get self.now.0 number ≡ Some result.now }
    {
        self.texts.get_index(number).unwrap().as_str()
    }

    /// Adds a name that isn't there.
    pub fn add(&mut self, name: &str) -> Result<(), NoMemory>
        requires { place self.old.0 name.now ≡ None }
        ensures ok { OnOk result (self.new.0 ≡ self.old.0 ++ name.now ∷ []) }
        ensures err { OnErr result (self.new.0 ≡ self.old.0) }
    {
        let text = String::from_str(*self.texts.allocator(), name)?;
        self.texts.insert(text)?;
        Ok(())
    }

    /// Equal names, where no two are the same.
    pub fn twin(&self) -> Result<Names, NoMemory>
        requires { are_names self.now.0 ≡ true }
        ensures { IfOk result (λ names. names.0 ≡ self.now.0) }
    {
        let mut names = Names::new(*self.texts.allocator());
        match names.add_all(self) {
            Ok(()) => Ok(names),
            Err(refused) => {
                drop(names);
                Err(refused)
            }
        }
    }

    // Adds all names of another list, where there are none.
    fn add_all(&mut self, other: &Names) -> Result<(), NoMemory>
        requires none { self.old.0 ≡ [] }
        requires names { are_names other.now.0 ≡ true }
        ensures { OnOk result (self.new.0 ≡ other.now.0) }
    {
        for i in 0..other.len() {
            self.add(other.get(i))?;
        }
        Ok(())
    }

    /// Makes room for more names.
    pub fn reserve(&mut self, more: usize) -> Result<(), NoMemory>
        ensures same { self.new.0 ≡ self.old.0 }
        ensures room { OnOk result (more ≤ self.new.1) }
    {
        self.texts.reserve(more)?;
        Ok(())
    }

    /// Puts a name where there is room, unless it is there, and gives its number.
    pub fn put(&mut self, text: String) -> usize
        requires { 0 < self.old.1 }
        ensures names { self.new.0 ≡ with_name self.old.0 (string_bytes text) }
        ensures number { result ≡ number_of self.old.0 (string_bytes text) }
        ensures within { result < length self.new.0 }
        ensures room { self.old.1 ≤ self.new.1 + 1 }
    {
        let (number, _new) = self.texts.insert_full(text).unwrap();
        number
    }
}
