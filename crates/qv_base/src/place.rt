// Places in the files of a unit.
ghost use Rattle.std.specs.Prelude.{◌≡◌, ◌+◌};
ghost use Rattle.qv_base.specs.Place.{capped};

/// A line of one of the files of a unit.
///
/// Files are numbered from 0 in the order in which they are first read, lines from 1. A number that
/// would pass 2^32 - 1 stays there.
#[derive(Clone, Copy, Debug, PartialEq, Eq)]
pub struct Place {
    /// The file's number.
    pub file: u32,
    /// The line's number.
    pub line: u32,
}

impl Place {
    /// The first line of the file that has this number.
    pub fn first_line(file: usize) -> Place
        ensures file { result.file ≡ capped file }
        ensures line { result.line ≡ 1 }
    {
        Place {
            file: file.min(u32::MAX as usize) as u32,
            line: 1,
        }
    }

    /// The next line of the same file.
    pub fn next_line(self) -> Place
        ensures file { result.file ≡ self.file }
        ensures line { result.line ≡ capped (self.line + 1) }
    {
        Place {
            file: self.file,
            line: self.line.saturating_add(1),
        }
    }
}

#[cfg(test)]
mod tests {
    use super::*;

    #[test]
    fn places(rt: HostRuntime) {
        let first = Place::first_line(3);
        assert_eq!(rt; first, Place { file: 3, line: 1 });
        assert_eq!(rt; first.next_line(), Place { file: 3, line: 2 });
        let last = Place {
            file: 0,
            line: u32::MAX,
        };
        assert_eq!(rt; last.next_line(), last);
        assert_eq!(rt; Place::first_line(1 << 32).file, u32::MAX);
    }
}
