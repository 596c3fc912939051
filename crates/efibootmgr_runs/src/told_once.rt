//! A runtime that tells each line on standard error once, as `efibootmgr`.

use std::alloc::{AllocError, Allocator, Global};
use std::cell::RefCell;
use std::collections::BTreeSet;
use std::fmt::Display;
use std::fs::{Metadata, OpenOptions, Permissions};
use std::io::{self, Lines};
use std::path::PathBuf;
use std::rt::{Clock, Files};
use std::time::Duration;

/// What lines of other libraries begin with, which speak as `bootvars`.
const BOOTVARS: &str = "bootvars: ";

/// What they begin with when they are told.
const EFIBOOTMGR: &str = "efibootmgr: ";

/// Another runtime, of which standard error is told each line once, as `efibootmgr` would tell it. Each step of a run reads the
/// variables anew, and would tell again what is left out of them.
#[derive(Drop)]
pub(crate) struct ToldOnce<'a, R> {
    rt: &'a R,
    told: RefCell<BTreeSet<String>>,
}

impl<'a, R: AllocGlobal> ToldOnce<'a, R> {
    /// One over this runtime, by which nothing is told yet.
    pub(crate) fn new(rt: &'a R) -> ToldOnce<'a, R> {
        ToldOnce {
            rt,
            told: RefCell::new(BTreeSet::new(rt.alloc())),
        }
    }

    /// The line of what is to be told, as `efibootmgr` would tell it.
    ///
    /// # Errors
    ///
    /// [`AllocError`] if memory was refused.
    fn line_of<D: Display>(&self, value: &D) -> Result<String, AllocError> {
        let alloc = self.rt.alloc();
        let line = format!(in alloc; "{value}")?;
        match line.strip_prefix(BOOTVARS) {
            Some(rest) => format!(in alloc; "{EFIBOOTMGR}{rest}"),
            None => Ok(line),
        }
    }

    /// Whether the line was told before. From now on it counts as told; if memory is refused for that, it may be told again.
    fn is_told(&self, line: &str) -> bool {
        let Ok(line) = String::from_str(self.rt.alloc(), line) else {
            return false;
        };
        match self.told.try_borrow_mut() {
            Ok(mut told) => matches!(told.insert(line), Ok(false)),
            Err(_) => false,
        }
    }
}

impl<R: AllocGlobal> Alloc for ToldOnce<'_, R> {
    type A = Global;

    fn alloc(&self) -> Global {
        self.rt.alloc()
    }
}

impl<R: Eprint + AllocGlobal> Eprint for ToldOnce<'_, R> {
    fn eprint<D: Display + Drop>(&self, value: D) -> io::Result<()> {
        self.rt.eprint(value)
    }

    fn eprintln<D: Display + Drop>(&self, value: D) -> io::Result<()> {
        let Ok(line) = self.line_of(&value) else {
            return self.rt.eprintln(value);
        };
        if self.is_told(line.as_str()) {
            return Ok(());
        }
        self.rt.eprintln(line)
    }
}

impl<R: Print> Print for ToldOnce<'_, R> {
    fn print<D: Display + Drop>(&self, value: D) -> io::Result<()> {
        self.rt.print(value)
    }

    fn println<D: Display + Drop>(&self, value: D) -> io::Result<()> {
        self.rt.println(value)
    }

    fn write_all(&self, bytes: &[u8]) -> io::Result<()> {
        self.rt.write_all(bytes)
    }

    fn write_some(&self, bytes: &[u8]) -> io::Result<usize> {
        self.rt.write_some(bytes)
    }
}

impl<R: Input> Input for ToldOnce<'_, R> {
    type Reader = R::Reader;

    fn read_line<A: Allocator + Clone>(&self, buf: &mut String<A>) -> io::Result<usize> {
        self.rt.read_line(buf)
    }

    fn lines<A: Allocator>(&self, alloc: A) -> Lines<R::Reader, A> {
        self.rt.lines(alloc)
    }

    fn reader(&self) -> R::Reader {
        self.rt.reader()
    }
}

impl<R: Clock> Clock for ToldOnce<'_, R> {
    fn monotonic(&self) -> io::Result<Duration> {
        self.rt.monotonic()
    }

    fn since_1970(&self) -> io::Result<Duration> {
        self.rt.since_1970()
    }

    fn sleep(&self, duration: Duration) {
        self.rt.sleep(duration)
    }
}

/// Sockets and pipes, which no step of a run has, are left out.
impl<R: Files> Files for ToldOnce<'_, R> {
    type File = R::File;

    type Dir = R::Dir;

    fn open_file(&self, how: &OpenOptions, path: &str) -> io::Result<R::File> {
        self.rt.open_file(how, path)
    }

    fn open_dir(&self, path: &str) -> io::Result<R::Dir> {
        self.rt.open_dir(path)
    }

    fn metadata(&self, path: &str) -> io::Result<Metadata> {
        self.rt.metadata(path)
    }

    fn symlink_metadata(&self, path: &str) -> io::Result<Metadata> {
        self.rt.symlink_metadata(path)
    }

    fn copy(&self, from: &str, to: &str) -> io::Result<u64> {
        self.rt.copy(from, to)
    }

    fn rename(&self, from: &str, to: &str) -> io::Result<()> {
        self.rt.rename(from, to)
    }

    fn remove_file(&self, path: &str) -> io::Result<()> {
        self.rt.remove_file(path)
    }

    fn create_dir(&self, path: &str) -> io::Result<()> {
        self.rt.create_dir(path)
    }

    fn create_dir_with_mode(&self, path: &str, mode: u32) -> io::Result<()> {
        self.rt.create_dir_with_mode(path, mode)
    }

    fn remove_dir(&self, path: &str) -> io::Result<()> {
        self.rt.remove_dir(path)
    }

    fn remove_dir_all<B: Allocator>(&self, alloc: B, path: &str) -> io::Result<()> {
        self.rt.remove_dir_all(alloc, path)
    }

    fn canonicalize<B: Allocator>(&self, alloc: B, path: &str) -> io::Result<PathBuf<B>> {
        self.rt.canonicalize(alloc, path)
    }

    fn read_link<B: Allocator>(&self, alloc: B, path: &str) -> io::Result<PathBuf<B>> {
        self.rt.read_link(alloc, path)
    }

    fn hard_link(&self, original: &str, link: &str) -> io::Result<()> {
        self.rt.hard_link(original, link)
    }

    fn symlink(&self, original: &str, link: &str) -> io::Result<()> {
        self.rt.symlink(original, link)
    }

    fn set_permissions(&self, path: &str, perm: Permissions) -> io::Result<()> {
        self.rt.set_permissions(path, perm)
    }

    fn chown(&self, path: &str, uid: Option<u32>, gid: Option<u32>) -> io::Result<()> {
        self.rt.chown(path, uid, gid)
    }

    fn lchown(&self, path: &str, uid: Option<u32>, gid: Option<u32>) -> io::Result<()> {
        self.rt.lchown(path, uid, gid)
    }
}
