ghost use Rattle.std.specs.Prelude.{◌≡◌, ◌<◌, ◌≤◌, min, length};
ghost use Rattle.waiting.specs.Waiting.{waiting, inside, behind, put_answer, PutAfter, Taken};

use table::Full;

/// Which of the lent places are in use: the oldest is at `start`, and `count` wait from there on, going round the end.
// The places are lent at each call, since the caller may own them beside the line in one struct.
#[derive(Clone, Copy)]
pub struct Line {
    start: usize,
    count: usize,
}

impl Line {
    /// A line in which nothing waits.
    pub fn new() -> Line
        ensures { result ≡ record { start = 0; count = 0 } }
    {
        Line { start: 0, count: 0 }
    }

    /// The line over so many places: a start that lies outside is 0, and no more wait than there are places.
    fn over(self, size: usize) -> Line
        ensures start { result.start ≡ inside size self.start }
        ensures count { result.count ≡ min self.count size }
    {
        Line {
            start: if self.start < size { self.start } else { 0 },
            count: self.count.min(size),
        }
    }

    /// The place so many places behind the start, going round the end.
    fn behind(self, size: usize, steps: usize) -> usize
        requires { (self.start < size) × (steps ≤ size) }
        ensures is { result ≡ behind size self.start steps }
        ensures within { result < size }
    {
        let room = size - self.start;
        if steps < room {
            self.start + steps
        } else {
            steps - room
        }
    }

    /// How many wait.
    pub fn count<T>(&self, places: &[T]) -> usize
        ensures { result ≡ length (waiting places.now self.now) }
    {
        self.over(places.len()).count
    }

    /// Puts something behind those that wait, unless all places are in use.
    pub fn put<T: Copy>(&mut self, places: &mut [T], x: T) -> Result<(), Full>
        ensures answer { result ≡ put_answer places.old self.old }
        ensures after { PutAfter result places.old self.old x places.new self.new }
    {
        let size = places.len();
        let line = self.over(size);
        if line.count == size {
            return Err(Full);
        }
        places[line.behind(size, line.count)] = x;
        *self = Line {
            count: line.count + 1,
            ..line
        };
        Ok(())
    }

    /// Takes the oldest, if any waits.
    pub fn take<T: Copy>(&mut self, places: &[T]) -> Option<T>
        ensures { Taken places.now self.old result self.new }
    {
        let size = places.len();
        let line = self.over(size);
        if line.count == 0 {
            return None;
        }
        *self = Line {
            start: line.behind(size, 1),
            count: line.count - 1,
        };
        Some(places[line.start])
    }
}
