//! The classes of the tests, as texts for the assembler.

/// The class A with a static method verify from an array of bytes to one, which returns what it is given.
pub const A: &[u8] = b".class 21 A\n\
    .super java/lang/Object\n\
    .method 9 verify ([B)[B\n\
    .stack 1\n\
    .locals 1\n\
    aload_0\n\
    areturn\n\
    .end\n";

/// The same with `breakpoint` as its second instruction.
pub const BREAKS: &[u8] = b".class 21 A\n\
    .super java/lang/Object\n\
    .method 9 verify ([B)[B\n\
    .stack 1\n\
    .locals 1\n\
    aload_0\n\
    breakpoint\n\
    .end\n";

/// A class A whose superclass is A.
pub const UNDER_ITSELF: &[u8] = b".class 21 A\n\
    .super A\n";

/// A class B with a native n()V, and a finalize()V with code.
pub const NATIVE: &[u8] = b".class 21 B\n\
    .super java/lang/Object\n\
    .abstract 101 n ()V\n\
    .method 1 finalize ()V\n\
    .stack 0\n\
    .locals 1\n\
    return\n\
    .end\n";

/// A class D of version 53 with two native n()V, and a native finalize()V.
pub const TWICE: &[u8] = b".class 21 D\n\
    .version 53 0\n\
    .super java/lang/Object\n\
    .abstract 101 n ()V\n\
    .abstract 101 n ()V\n\
    .abstract 101 finalize ()V\n";
