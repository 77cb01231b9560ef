// Building a plan's bytes in the caller's buffer. No write goes past the buffer's end.

// The room of a plan one byte longer than the longest that is legal.
pub const ROOM: usize = 16732;

// A buffer, and the place of the next byte that is written.
#[derive(Drop)]
pub struct PlanBytes<'a> {
    pub plan: &'a mut [u8],
    pub at: usize,
}

impl<'a> PlanBytes<'a> {
    // Writes a byte.
    fn put(&mut self, byte: u8) {
        if self.at < self.plan.len() {
            self.plan[self.at] = byte;
            self.at += 1;
        }
    }

    // Writes a number's low byte.
    fn put_low(&mut self, x: usize) {
        self.put((x % 256) as u8);
    }

    // Writes a number in two bytes, the low one first.
    fn put_two(&mut self, x: usize) {
        self.put_low(x);
        self.put_low(x / 256);
    }

    // Writes bytes one after another.
    pub fn put_bytes(&mut self, bytes: &[u8]) {
        for byte in bytes {
            self.put(*byte);
        }
    }

    // Writes numbers below 256 one after another.
    pub fn put_all(&mut self, numbers: &[usize]) {
        for number in numbers {
            self.put_low(*number);
        }
    }

    // Writes a router.
    fn put_router(&mut self, role: usize, identifier: usize) {
        self.put_low(role);
        self.put_two(identifier);
        self.put_two(0);
    }

    // Writes the routers of these roles, with identifiers 10, 20, 30 and so on.
    pub fn put_routers(&mut self, roles: &[usize]) {
        let mut identifier = 0usize;
        for role in roles {
            identifier = identifier.wrapping_add(10);
            self.put_router(*role, identifier);
        }
    }

    // Writes distances.
    pub fn put_distances(&mut self, distances: &[usize]) {
        for distance in distances {
            self.put_two(*distance);
        }
    }

    // Writes so many distances 0.
    pub fn put_zeros(&mut self, count: usize) {
        let end = self
            .plan
            .len()
            .min(self.at.saturating_add(count.saturating_mul(2)));
        if self.at < end {
            self.plan[self.at..end].fill(0);
            self.at = end;
        }
    }

    // Writes distances so many times over, and then a 0.
    pub fn put_again(&mut self, times: usize, distances: &[usize]) {
        for _ in 0..times {
            self.put_distances(distances);
        }
        self.put_two(0);
    }

    // Writes the pairs of `lead` with each router after it, up to `last`.
    fn put_pairs_with(&mut self, lead: usize, last: usize) {
        for other in lead..last {
            self.put_low(lead);
            self.put_low(other + 1);
        }
    }

    // Writes all pairs of routers up to `last`.
    pub fn put_all_pairs(&mut self, last: usize) {
        for lead in 0..last {
            self.put_pairs_with(lead, last);
        }
    }

    // Writes a list of the routers below n.
    fn put_full_list(&mut self, n: usize) {
        self.put_low(n);
        for router in 0..n {
            self.put_low(router);
        }
    }

    // Writes a body of m lists of the routers below n.
    pub fn put_full_lists(&mut self, m: usize, n: usize) {
        self.put_low(m);
        for _ in 0..m {
            self.put_full_list(n);
        }
    }
}

// Writes the letters, the number of routers and the number of contents entries.
pub fn put_head(plan: &mut [u8], n: usize) {
    let mut head = PlanBytes { plan, at: 0 };
    head.put_bytes(b"RRP1");
    head.put_low(n);
    head.put(4);
}

// Writes the contents entry of a body that lies from `start` up to before `stop`.
pub fn put_entry(plan: &mut [u8], kind: u8, start: usize, stop: usize) {
    let at = 1 + 5 * usize::from(kind % 8);
    let mut entry = PlanBytes { plan, at };
    entry.put(kind);
    entry.put_two(start);
    entry.put_two(stop.wrapping_sub(start));
}
