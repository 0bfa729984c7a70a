//! The classes that the tests run, as texts for the assembler, and the class file of a text.

use dj_asm::assemble;
use std::alloc::{AllocError, Global};

/// The class A, whose one method returns its argument.
pub const A: &[u8] = b".class 21 A\n\
    .super java/lang/Object\n\
    .method 9 verify ([B)[B\n\
    .stack 1\n\
    .locals 1\n\
    aload_0\n\
    areturn\n\
    .end\n";

/// The class B, which has a native n()V, and a finalize()V with code.
pub const NATIVE: &[u8] = b".class 21 B\n\
    .super java/lang/Object\n\
    .abstract 101 n ()V\n\
    .method 1 finalize ()V\n\
    .stack 0\n\
    .locals 1\n\
    return\n\
    .end\n";

/// The class A that makes two objects, and returns the last byte of the hash of the second.
pub const HASH: &[u8] = b".class 21 A\n\
    .super java/lang/Object\n\
    .method 9 verify ([B)[B\n\
    .stack 9\n\
    .locals 9\n\
    new java/lang/Object\n\
    dup\n\
    invokespecial java/lang/Object <init> ()V\n\
    pop\n\
    new java/lang/Object\n\
    dup\n\
    invokespecial java/lang/Object <init> ()V\n\
    invokevirtual java/lang/Object hashCode ()I\n\
    istore_1\n\
    iconst_1\n\
    newarray byte\n\
    dup\n\
    iconst_0\n\
    iload_1\n\
    bastore\n\
    areturn\n\
    .end\n";

/// The class A that returns the sum of its argument.
pub const SUM: &[u8] = b".class 21 A\n\
    .super java/lang/Object\n\
    .method 9 verify ([B)[B\n\
    .stack 4\n\
    .locals 3\n\
    iconst_0\n\
    istore_1\n\
    iconst_0\n\
    istore_2\n\
    Next:\n\
    .frame append int int\n\
    iload_2\n\
    aload_0\n\
    arraylength\n\
    if_icmpge Done\n\
    iload_1\n\
    aload_0\n\
    iload_2\n\
    baload\n\
    iadd\n\
    istore_1\n\
    iinc 2 1\n\
    goto Next\n\
    Done:\n\
    .frame same\n\
    iconst_1\n\
    newarray byte\n\
    dup\n\
    iconst_0\n\
    iload_1\n\
    bastore\n\
    areturn\n\
    .end\n";

/// The class A that makes an array of as many bytes as all objects may take.
pub const HEAP: &[u8] = b".class 21 A\n\
    .super java/lang/Object\n\
    .method 9 verify ([B)[B\n\
    .stack 9\n\
    .locals 9\n\
    ldc int 67108864\n\
    newarray byte\n\
    areturn\n\
    .end\n";

/// The class A that jumps for ever.
pub const LOOP: &[u8] = b".class 21 A\n\
    .super java/lang/Object\n\
    .method 9 verify ([B)[B\n\
    .stack 9\n\
    .locals 9\n\
    Again:\n\
    .frame same\n\
    goto Again\n\
    .end\n";

/// The class A that throws null.
pub const THROW: &[u8] = b".class 21 A\n\
    .super java/lang/Object\n\
    .method 9 verify ([B)[B\n\
    .stack 1\n\
    .locals 1\n\
    aconst_null\n\
    athrow\n\
    .end\n";

/// The class A whose method calls itself for ever.
pub const CALL: &[u8] = b".class 21 A\n\
    .super java/lang/Object\n\
    .method 9 verify ([B)[B\n\
    .stack 1\n\
    .locals 1\n\
    aload_0\n\
    invokestatic A verify ([B)[B\n\
    areturn\n\
    .end\n";

/// The class A whose initialiser throws null.
pub const BEGIN: &[u8] = b".class 21 A\n\
    .super java/lang/Object\n\
    .method 9 verify ([B)[B\n\
    .stack 1\n\
    .locals 1\n\
    aload_0\n\
    areturn\n\
    .end\n\
    .method 8 <clinit> ()V\n\
    .stack 1\n\
    .locals 0\n\
    aconst_null\n\
    athrow\n\
    .end\n";

/// The class A that returns an object.
pub const OBJECT: &[u8] = b".class 21 A\n\
    .super java/lang/Object\n\
    .method 9 verify ([B)[B\n\
    .stack 1\n\
    .locals 1\n\
    new java/lang/Object\n\
    areturn\n\
    .end\n";

/// The class A that asks the time twice, and returns the last byte of the nanoseconds between.
pub const TIMES: &[u8] = b".class 21 A\n\
    .super java/lang/Object\n\
    .method 9 verify ([B)[B\n\
    .stack 4\n\
    .locals 2\n\
    invokestatic java/lang/System nanoTime ()J\n\
    invokestatic java/lang/System nanoTime ()J\n\
    lsub\n\
    lneg\n\
    l2i\n\
    istore_1\n\
    iconst_1\n\
    newarray byte\n\
    dup\n\
    iconst_0\n\
    iload_1\n\
    bastore\n\
    areturn\n\
    .end\n";

/// A text that lacks the class's name.
pub const NO_NAME: &[u8] = b".class 21\n";

/// The class file of a text that is short and has no fault.
pub fn class_file(alloc: Global, text: &[u8]) -> Result<Vec<u8>, AllocError> {
    if text.len() > 9_999 {
        return Err(AllocError);
    }
    let file = assemble(alloc, text).map_err(|_| AllocError)?;
    Vec::from_slice(alloc, file.as_slice())
}
