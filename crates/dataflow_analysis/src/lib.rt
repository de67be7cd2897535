// The first-in work list: its cursor by value beside the slice of keys, and a receipt over the sets of the nodes.
#![tactic(auto)]

ghost use Rattle.std.specs.Prelude.{◌≡◌, true, ◌+◌, ◌<◌, ◌≤◌, length, IfNone, IfSome};
ghost use Rattle.dataflow_domains.specs.Sets.{mask};
ghost use Rattle.dataflow_analysis.specs.Queue.{waiting, taken_of, Queued};

use dataflow_domains::{JoinResult, Joined, LiveVarState};

// The keys wait at `head` and the `len` places from there on, in a slice beside it.
#[derive(Clone, Copy)]
pub struct Cursor {
    pub head: usize,
    pub len: usize,
}

impl Cursor {
    pub fn new() -> Cursor
        ensures head { result.head ≡ 0 }
        ensures len { result.len ≡ 0 }
    {
        Cursor { head: 0, len: 0 }
    }

    // One more at the end.
    pub fn put(self, q: &mut [u16], k: u16) -> Cursor
        requires { self.head + self.len < length q.old }
        ensures { Queued q.old self k q.new result }
    {
        q[self.head + self.len] = k;
        Cursor {
            len: self.len + 1,
            ..self
        }
    }

    // The one at the front, and the cursor past it.
    pub fn take(self, q: &[u16]) -> Option<(u16, Cursor)>
        requires { self.head + self.len ≤ length q.now }
        ensures { result ≡ taken_of (waiting q.now self) self }
    {
        if self.len == 0 {
            return None;
        }
        let next = Cursor {
            head: self.head + 1,
            len: self.len - 1,
        };
        Some((q[self.head], next))
    }
}

// The set of each node, whether it was met, and the nodes that wait.
#[derive(Drop)]
pub struct Worklist<'a> {
    pub sets: &'a mut [LiveVarState],
    pub met: &'a mut [bool],
    pub queue: &'a mut [u16],
    pub cursor: Cursor,
}

impl<'a> Worklist<'a> {
    ghost use Rattle.dataflow_analysis.specs.Receipt.{news_at, Received, Taken, Ended};

    // Node p receives the set m: it joins the list where it is first met or its set grows.
    pub fn receive(&mut self, p: u16, m: LiveVarState)
        requires set_inside { p < length self.now.sets.now }
        requires mark_inside { p < length self.now.met.now }
        requires room { news_at self.now p (mask m) ≡ true → self.now.cursor.head + self.now.cursor.len < length self.now.queue.now }
        ensures { Received self.old p (mask m) self.new }
    {
        let at = usize::from(p);
        let old = self.sets[at];
        let Joined { state, result } = old.join(m);
        if !self.met[at] || result == JoinResult::Changed {
            self.sets[at] = state;
            self.met[at] = true;
            self.cursor = self.cursor.put(self.queue, p);
        }
    }

    // The node that waits first, and the cursor past it.
    fn first(&self) -> Option<(u16, Cursor)>
        requires { self.now.cursor.head + self.now.cursor.len ≤ length self.now.queue.now }
        ensures { result ≡ taken_of (waiting self.now.queue.now self.now.cursor) self.now.cursor }
    {
        self.cursor.take(self.queue)
    }

    // The node that waits first, off the list.
    pub fn take(&mut self) -> Option<u16>
        requires { self.now.cursor.head + self.now.cursor.len ≤ length self.now.queue.now }
        ensures none { IfNone result (Ended self.old self.new) }
        ensures some { IfSome result (λ k. Taken self.old k self.new) }
    {
        let (k, next) = self.first()?;
        self.cursor = next;
        Some(k)
    }
}
