//! Where lists and lines come from: files, and the standard input.

ghost use Rattle.std.specs.Prelude.{◌≡◌, Some, IfOk, OnOk, IfErr};
ghost use Rattle.prefixes_core.specs.Internal.Failures.{IsListFailure};
ghost use Rattle.prefixes_core.specs.Internal.Inputs.{IsAfter};
ghost use Rattle.prefixes_core.specs.Reads.{AreNames, AreNetworks, AreRoutes};
ghost use Rattle.prefixes_core.specs.Reads.{IsBlockList, IsListing, Reads};
ghost use Rattle.prefixes_core.specs.Sources.{HasBytes, OfBytes};

use crate::blocking::BlockList;
use crate::failure::{Failure, list_failure};
use crate::lines::LineFormat;
use crate::listing::{Destination, ListError, Listing, NameSet, Names, Values, read_list};
use crate::networks::Networks;
use crate::opening::Opens;
use crate::packable::Packable;
use crate::value::Payload;
use patricia_tree::router::Router;
use std::alloc::Global;
use std::io::{Read, Write};

/// What lists are read from, and how.
#[derive(Drop)]
pub struct Inputs<'r, R, I: Read + Drop, E: Write + Drop> {
    pub rt: &'r R,
    pub alloc: Global,
    /// The standard input, until a list or the lines are read from it.
    pub standard: Option<I>,
    /// What is told how far long lists are read.
    pub progress: Option<E>,
    /// How lists and lines are cut off bytes.
    pub format: LineFormat,
}

/// What messages call a path, where a hyphen is the standard input.
pub fn shown(path: &str) -> &str {
    if path == "-" { "standard input" } else { path }
}

impl<'r, R: Opens, I: Read + Drop, E: Write + Drop> Inputs<'r, R, I, E> {
    // Adds the entries of the list that is read from a file.
    fn add_from<F: Read + Drop, S: Destination>(
        &mut self,
        file: F,
        path: &str,
        values: Values,
        destination: &mut S,
    ) -> Result<(), Failure>
        ensures read { OnOk result (OfBytes (λ bytes. F.remaining file ≡ Some bytes) (λ bytes.
            Reads S.IsName S.Adds self.old.format values bytes destination.old destination.new)) }
        ensures after { IsAfter self.old self.new }
        ensures named { IfErr result IsListFailure }
    {
        let alloc = self.alloc;
        match read_list(
            alloc,
            file,
            values,
            self.format,
            &mut self.progress,
            destination,
        ) {
            Ok(()) => Ok(()),
            Err(error) => Err(list_failure(alloc, shown(path), error)),
        }
    }

    // Reads the list at a path, and adds its entries.
    fn add_list<S: Destination>(
        &mut self,
        path: &str,
        values: Values,
        destination: &mut S,
    ) -> Result<(), Failure>
        ensures read { OnOk result
            (OfBytes (HasBytes R.content I.remaining self.old path.now) (λ bytes.
            Reads S.IsName S.Adds self.old.format values bytes destination.old destination.new)) }
        ensures after { IsAfter self.old self.new }
        ensures named { IfErr result IsListFailure }
    {
        if path == "-" {
            return match self.standard.take() {
                Some(input) => self.add_from(input, path, values, destination),
                None => Err(Failure::ReadTwice),
            };
        }
        match self.rt.open_to_read(path) {
            Ok(file) => self.add_from(file, path, values, destination),
            Err(error) => Err(list_failure(self.alloc, path, ListError::Read(error))),
        }
    }

    /// Reads the list at a path.
    pub fn list(&mut self, path: &str) -> Result<Listing, Failure>
        ensures read { IfOk result (λ list.
            OfBytes (HasBytes R.content I.remaining self.old path.now) (λ bytes.
            IsListing self.old.format bytes list)) }
        ensures after { IsAfter self.old self.new }
        ensures named { IfErr result IsListFailure }
    {
        let mut list = Listing::new(self.alloc);
        self.add_list(path, Values::Optional, &mut list)?;
        Ok(list)
    }

    /// Reads the names of the list at a path.
    pub fn names(&mut self, path: &str) -> Result<Names, Failure>
        ensures read { IfOk result (λ names.
            OfBytes (HasBytes R.content I.remaining self.old path.now) (λ bytes.
            AreNames self.old.format bytes names)) }
        ensures after { IsAfter self.old self.new }
        ensures named { IfErr result IsListFailure }
    {
        let mut names = Names::new(self.alloc);
        self.add_list(path, Values::Optional, &mut names)?;
        Ok(names)
    }

    /// Reads the list at a path, of which tree bytes are made.
    pub fn packable_list(&mut self, path: &str) -> Result<Listing, Failure> {
        let mut list = Packable(Listing::new(self.alloc));
        self.add_list(path, Values::Optional, &mut list)?;
        Ok(list.0)
    }

    /// Reads the names of the list at a path, of which tree bytes are made.
    pub fn packable_names(&mut self, path: &str) -> Result<Names, Failure> {
        let mut names = Packable(Names::new(self.alloc));
        self.add_list(path, Values::Optional, &mut names)?;
        Ok(names.0)
    }

    /// Reads the names of the list at a path as a set.
    pub fn set(&mut self, path: &str) -> Result<NameSet, Failure>
        ensures read { IfOk result (λ names.
            OfBytes (HasBytes R.content I.remaining self.old path.now) (λ bytes.
            AreNames self.old.format bytes names)) }
        ensures after { IsAfter self.old self.new }
        ensures named { IfErr result IsListFailure }
    {
        let mut names = NameSet::new(self.alloc);
        self.add_list(path, Values::Optional, &mut names)?;
        Ok(names)
    }

    /// Reads the table of routes at a path.
    pub fn router(&mut self, path: &str) -> Result<Router<String, Payload>, Failure>
        ensures read { IfOk result (λ routes.
            OfBytes (HasBytes R.content I.remaining self.old path.now) (λ bytes.
            AreRoutes self.old.format bytes routes)) }
        ensures after { IsAfter self.old self.new }
        ensures named { IfErr result IsListFailure }
    {
        let mut routes = Router::new(self.alloc);
        self.add_list(path, Values::Needed, &mut routes)?;
        Ok(routes)
    }

    /// Reads the table of networks at a path.
    pub fn networks(&mut self, path: &str) -> Result<Networks, Failure>
        ensures read { IfOk result (λ table.
            OfBytes (HasBytes R.content I.remaining self.old path.now) (λ bytes.
            AreNetworks self.old.format bytes table)) }
        ensures after { IsAfter self.old self.new }
        ensures named { IfErr result IsListFailure }
    {
        let mut table = Networks::new(self.alloc);
        self.add_list(path, Values::Needed, &mut table)?;
        Ok(table)
    }

    /// Reads the block list at a path.
    pub fn block_list(&mut self, path: &str) -> Result<BlockList, Failure>
        ensures read { IfOk result (λ names.
            OfBytes (HasBytes R.content I.remaining self.old path.now) (λ bytes.
            IsBlockList self.old.format bytes names)) }
        ensures after { IsAfter self.old self.new }
        ensures named { IfErr result IsListFailure }
    {
        let mut names = BlockList::new(self.alloc);
        self.add_list(path, Values::Optional, &mut names)?;
        Ok(names)
    }
}
