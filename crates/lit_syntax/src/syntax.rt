//! What a litmus test says, statement by statement.

/// How an access sees the block. A typed array begins at byte 0 and has as many whole elements as fit.
#[derive(Clone, Copy, Debug, PartialEq, Eq)]
pub enum View {
    /// An element of a `Uint8Array`, 1 byte.
    U8,
    /// An element of a `Uint16Array`, 2 bytes.
    U16,
    /// An element of a `Uint32Array`, 4 bytes.
    U32,
    /// A `DataView` call over 1 byte.
    D8,
    /// A `DataView` call over 2 bytes.
    D16,
    /// A `DataView` call over 4 bytes.
    D32,
}

/// A statement of an agent. `reg` is the number of a register, 0 for `r0` up to 7. `index` counts elements of a typed
/// array, or bytes in a `DataView` call, from the block's start; the whole access lies in the block. A literal that is
/// written or expected is below 256 to the power of the access's bytes.
#[derive(Debug, Drop)]
pub enum Stmt {
    /// Reads into a register, by `Atomics.load` where atomic, which no `DataView` call is.
    Load {
        reg: u8,
        view: View,
        index: u8,
        atomic: bool,
    },
    /// Writes a literal, by `Atomics.store` where atomic, which no `DataView` call is.
    Store {
        view: View,
        index: u8,
        value: u32,
        atomic: bool,
    },
    /// `Atomics.exchange` on a typed array: reads into a register, and writes a literal.
    Exchange {
        reg: u8,
        view: View,
        index: u8,
        value: u32,
    },
    /// `Atomics.compareExchange` on a typed array: reads into a register, and writes `value` where it read `expected`.
    CompareExchange {
        reg: u8,
        view: View,
        index: u8,
        expected: u32,
        value: u32,
    },
    /// `body` where the register equals the number, else `other`; where `equal` is false, `body` where it differs. At
    /// most eight of these stand one in the other.
    If {
        reg: u8,
        equal: bool,
        value: u32,
        body: Vec<Stmt>,
        other: Vec<Stmt>,
    },
}

/// A condition on the registers at the end.
#[derive(Debug, Drop)]
pub enum Cond {
    /// Some member holds. There are two members at least.
    Any(Vec<Cond>),
    /// Each member holds. There are two members at least.
    All(Vec<Cond>),
    /// The condition does not hold.
    Not(Box<Cond>),
    /// A register of an agent equals a number, or differs from it where `equal` is false. Agents are numbered from 0 in
    /// the order of the text, registers as in `Stmt`, and the agent writes the register.
    Is {
        agent: u8,
        reg: u8,
        equal: bool,
        value: u32,
    },
}
