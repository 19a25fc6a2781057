use riscv_spec::Link;

/// An open call: the address that its return leads to, the register that it links by, and the address called.
#[derive(Clone, Copy, Debug, PartialEq, Eq)]
pub struct Frame {
    pub back: u32,
    pub link: Link,
    pub callee: u32,
}
