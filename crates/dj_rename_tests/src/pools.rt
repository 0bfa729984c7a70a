//! Pools with renamed texts, constant by constant.
ghost use Rattle.std.specs.Prelude.{IsTrue, All};
ghost use Rattle.dj_pool.specs.trusted.Pool.{IsPool};
ghost use Rattle.dj_rename.specs.Refusals.{IsDescIndex, AreAppended};

use crate::pieces::{Pieces, bytes_of, is_descriptor};
use dj_pool::Entry::*;
use dj_pool::{Entry, Pool, read_pool};
use dj_rename::{Texts, rename_pool, rename_texts};
use std::alloc::Global;

// A pool from its count on, and the indexes of its members' descriptors; the texts that are appended, the new constants, and the new indexes.
type Row = (
    Pieces,
    &'static [u16],
    &'static [&'static [u8]],
    &'static [Entry<'static>],
    &'static [u16],
);

#[rattlefmt::skip]
const FIRST: [Row; 16] = [
    (&[(b"\x00\x08\x01\x00\x01A\x07\x00\x01\x01\x00\x10java/lang/Object\x07\x00\x03\x01\x00\x06verify\x01\x00\x06([B)[B\x01\x00\x04Code", 1)], &[6], &[b"sandbox/A", b"sandbox/java/lang/Object"], &[Utf8(b"A"), Class(8), Utf8(b"java/lang/Object"), Class(9), Utf8(b"verify"), Utf8(b"([B)[B"), Utf8(b"Code"), Utf8(b"sandbox/A"), Utf8(b"sandbox/java/lang/Object")], &[6]),
    (&[(b"\x00\x08\x01\x00\x01A\x07\x00\x01\x01\x00\x10java/lang/Object\x07\x00\x03\x01\x00\x06verify\x01\x00\x06([B)[B\x01\x00\x04Code", 1)], &[], &[b"sandbox/A", b"sandbox/java/lang/Object"], &[Utf8(b"A"), Class(8), Utf8(b"java/lang/Object"), Class(9), Utf8(b"verify"), Utf8(b"([B)[B"), Utf8(b"Code"), Utf8(b"sandbox/A"), Utf8(b"sandbox/java/lang/Object")], &[]),
    (&[(b"\x00\x08\x01\x00\x01A\x07\x00\x01\x01\x00\x10java/lang/Object\x07\x00\x03\x01\x00\x06verify\x01\x00\x06([B)[B\x01\x00\x04Code", 1)], &[6, 6], &[b"sandbox/A", b"sandbox/java/lang/Object"], &[Utf8(b"A"), Class(8), Utf8(b"java/lang/Object"), Class(9), Utf8(b"verify"), Utf8(b"([B)[B"), Utf8(b"Code"), Utf8(b"sandbox/A"), Utf8(b"sandbox/java/lang/Object")], &[6, 6]),
    (&[(b"\x00\x01", 1)], &[], &[], &[], &[]),
    (&[(b"\x00\x02\x01\x00\x01A", 1)], &[], &[], &[Utf8(b"A")], &[]),
    (&[(b"\x00\x03\x01\x00\x01A\x07\x00\x01", 1)], &[], &[b"sandbox/A"], &[Utf8(b"A"), Class(3), Utf8(b"sandbox/A")], &[]),
    (&[(b"\x00\x03\x07\x00\x02\x01\x00\x01A", 1)], &[], &[b"sandbox/A"], &[Class(3), Utf8(b"A"), Utf8(b"sandbox/A")], &[]),
    (&[(b"\x00\x05\x01\x00\x01A\x07\x00\x01\x07\x00\x01\x08\x00\x01", 1)], &[], &[b"sandbox/A"], &[Utf8(b"A"), Class(5), Class(5), Text(1), Utf8(b"sandbox/A")], &[]),
    (&[(b"\x00\x05\x01\x00\x01A\x01\x00\x01A\x07\x00\x02\x07\x00\x01", 1)], &[], &[b"sandbox/A"], &[Utf8(b"A"), Utf8(b"A"), Class(5), Class(5), Utf8(b"sandbox/A")], &[]),
    (&[(b"\x00\x07\x01\x00\x02[I\x07\x00\x01\x01\x00\x05[[La;\x07\x00\x03\x01\x00\x04[La;\x07\x00\x05", 1)], &[1, 3, 5], &[b"[[Lsandbox/a;", b"[Lsandbox/a;"], &[Utf8(b"[I"), Class(1), Utf8(b"[[La;"), Class(7), Utf8(b"[La;"), Class(8), Utf8(b"[[Lsandbox/a;"), Utf8(b"[Lsandbox/a;")], &[1, 7, 8]),
    (&[(b"\x00\x05\x01\x00\x03LA;\x01\x00\x01A\x07\x00\x02\x0c\x00\x02\x00\x01", 1)], &[1, 1], &[b"sandbox/A", b"Lsandbox/A;"], &[Utf8(b"LA;"), Utf8(b"A"), Class(5), NameAndType(2, 6), Utf8(b"sandbox/A"), Utf8(b"Lsandbox/A;")], &[6, 6]),
    (&[(b"\x00\x09\x01\x00\x01f\x01\x00\x03LA;\x0c\x00\x01\x00\x02\x01\x00\x05()LA;\x0c\x00\x01\x00\x04\x10\x00\x04\x01\x00\x01I\x0c\x00\x01\x00\x07", 1)], &[7, 2, 4], &[b"Lsandbox/A;", b"()Lsandbox/A;"], &[Utf8(b"f"), Utf8(b"LA;"), NameAndType(1, 9), Utf8(b"()LA;"), NameAndType(1, 10), MethodType(10), Utf8(b"I"), NameAndType(1, 7), Utf8(b"Lsandbox/A;"), Utf8(b"()Lsandbox/A;")], &[7, 9, 10]),
    (&[(b"\x00\x04\x01\x00\x09sandbox/A\x01\x00\x01A\x07\x00\x02", 1)], &[], &[b"sandbox/A"], &[Utf8(b"sandbox/A"), Utf8(b"A"), Class(4), Utf8(b"sandbox/A")], &[]),
    (&[(b"\x00\x05\x01\x00\x03LI;\x01\x00\x01L\x07\x00\x02\x01\x00\x03LL;", 1)], &[1, 4, 1], &[b"sandbox/L", b"Lsandbox/I;", b"Lsandbox/L;"], &[Utf8(b"LI;"), Utf8(b"L"), Class(5), Utf8(b"LL;"), Utf8(b"sandbox/L"), Utf8(b"Lsandbox/I;"), Utf8(b"Lsandbox/L;")], &[6, 7, 6]),
    (&[(b"\x00\x08\x05\x00\x00\x00\x00\x00\x00\x00\x01\x01\x00\x01A\x07\x00\x03\x06\x00\x00\x00\x00\x00\x00\x00\x02\x03\x00\x00\x00\x03", 1)], &[], &[b"sandbox/A"], &[Long(1), Hole, Utf8(b"A"), Class(8), Double(0x0000000000000002), Hole, Integer(3), Utf8(b"sandbox/A")], &[]),
    (&[(b"\x00\x0a\x01\x00\x0d(LA;I[LB;)LA;\x10\x00\x01\x01\x00\x01m\x0c\x00\x03\x00\x01\x01\x00\x01C\x07\x00\x05\x0a\x00\x06\x00\x04\x0f\x05\x00\x07\x12\x00\x09\x00\x04", 1)], &[1], &[b"(Lsandbox/A;I[Lsandbox/B;)Lsandbox/A;", b"sandbox/C"], &[Utf8(b"(LA;I[LB;)LA;"), MethodType(10), Utf8(b"m"), NameAndType(3, 10), Utf8(b"C"), Class(11), Method(6, 4), Handle(5, 7), Dynamic(9, 4), Utf8(b"(Lsandbox/A;I[Lsandbox/B;)Lsandbox/A;"), Utf8(b"sandbox/C")], &[10]),
];

#[rattlefmt::skip]
const SECOND: [Row; 16] = [
    (&[(b"\x00\x06\x01\x00\x01A\x08\x00\x01\x01\x00\x01A\x07\x00\x03\x01\x00\x03LA;", 1)], &[5], &[b"sandbox/A", b"Lsandbox/A;"], &[Utf8(b"A"), Text(1), Utf8(b"A"), Class(6), Utf8(b"LA;"), Utf8(b"sandbox/A"), Utf8(b"Lsandbox/A;")], &[7]),
    (&[(b"\x00\x03\x01\x00\x04[LA;\x07\x00\x01", 1)], &[1], &[b"[Lsandbox/A;"], &[Utf8(b"[LA;"), Class(3), Utf8(b"[Lsandbox/A;")], &[3]),
    (&[(b"\x00\x04\x01\x00\x04\xe2\x82\xacL\x07\x00\x01\x01\x00\x05L\xe2\x82\xac;", 1)], &[3], &[b"sandbox/\xe2\x82\xacL", b"Lsandbox/\xe2\x82\xac;"], &[Utf8(b"\xe2\x82\xacL"), Class(4), Utf8(b"L\xe2\x82\xac;"), Utf8(b"sandbox/\xe2\x82\xacL"), Utf8(b"Lsandbox/\xe2\x82\xac;")], &[5]),
    (&[(b"\x00\x05\x01\x00\x03()V\x01\x00\x01m\x0c\x00\x02\x00\x01\x10\x00\x01", 1)], &[1], &[], &[Utf8(b"()V"), Utf8(b"m"), NameAndType(2, 1), MethodType(1)], &[1]),
    (&[(b"\x00\x0a\x01\x00\x01B\x07\x00\x01\x01\x00\x01A\x07\x00\x03\x01\x00\x03LB;\x01\x00\x03LA;\x01\x00\x01x\x0c\x00\x07\x00\x06\x0c\x00\x07\x00\x05", 1)], &[5, 6], &[b"sandbox/B", b"sandbox/A", b"Lsandbox/A;", b"Lsandbox/B;"], &[Utf8(b"B"), Class(10), Utf8(b"A"), Class(11), Utf8(b"LB;"), Utf8(b"LA;"), Utf8(b"x"), NameAndType(7, 12), NameAndType(7, 13), Utf8(b"sandbox/B"), Utf8(b"sandbox/A"), Utf8(b"Lsandbox/A;"), Utf8(b"Lsandbox/B;")], &[13, 12]),
    (&[(b"\x00\x05\x01\x00\x01x\x01\x00\x03LQ;\x01\x00\x03LP;\x0c\x00\x01\x00\x03", 1)], &[2, 3, 2], &[b"Lsandbox/P;", b"Lsandbox/Q;"], &[Utf8(b"x"), Utf8(b"LQ;"), Utf8(b"LP;"), NameAndType(1, 5), Utf8(b"Lsandbox/P;"), Utf8(b"Lsandbox/Q;")], &[6, 5, 6]),
    (&[(b"\x00\x0b\x01\x00\x02LA\x01\x00\x01I\x01\x00\x01I\x01\x00\x01I\x01\x00\x09sandbox/A\x01\x00\x02[J\x01\x00\x02[I\x01\x00\x03LA;\x0c\x00\x02\x00\x04\x0c\x00\x04\x00\x03", 1)], &[6, 8], &[b"Lsandbox/A;"], &[Utf8(b"LA"), Utf8(b"I"), Utf8(b"I"), Utf8(b"I"), Utf8(b"sandbox/A"), Utf8(b"[J"), Utf8(b"[I"), Utf8(b"LA;"), NameAndType(2, 4), NameAndType(4, 3), Utf8(b"Lsandbox/A;")], &[6, 11]),
    (&[(b"\x00\x0f\x01\x00\x03LA;\x01\x00\x03LI;\x01\x00\x0f(ILa/B;[LA;)LI;\x01\x00\x01I\x01\x00\x03a/B\x01\x00\x02[I\x01\x00\x09sandbox/A\x07\x00\x07\x0c\x00\x04\x00\x03\x10\x00\x03\x0c\x00\x04\x00\x03\x10\x00\x03\x07\x00\x06\x0c\x00\x04\x00\x01", 1)], &[], &[b"sandbox/sandbox/A", b"(ILsandbox/a/B;[Lsandbox/A;)Lsandbox/I;", b"Lsandbox/A;"], &[Utf8(b"LA;"), Utf8(b"LI;"), Utf8(b"(ILa/B;[LA;)LI;"), Utf8(b"I"), Utf8(b"a/B"), Utf8(b"[I"), Utf8(b"sandbox/A"), Class(15), NameAndType(4, 16), MethodType(16), NameAndType(4, 16), MethodType(16), Class(6), NameAndType(4, 17), Utf8(b"sandbox/sandbox/A"), Utf8(b"(ILsandbox/a/B;[Lsandbox/A;)Lsandbox/I;"), Utf8(b"Lsandbox/A;")], &[]),
    (&[(b"\x00\x0f\x01\x00\x0f(ILa/B;[LA;)LI;\x01\x00\x02[J\x01\x00\x02[I\x01\x00\x03()V\x01\x00\x02LA\x01\x00\x05La/B;\x01\x00\x09sandbox/A\x08\x00\x06\x07\x00\x03\x0c\x00\x05\x00\x02\x08\x00\x05\x10\x00\x01\x0c\x00\x05\x00\x03\x10\x00\x01", 1)], &[1, 6], &[b"(ILsandbox/a/B;[Lsandbox/A;)Lsandbox/I;", b"Lsandbox/a/B;"], &[Utf8(b"(ILa/B;[LA;)LI;"), Utf8(b"[J"), Utf8(b"[I"), Utf8(b"()V"), Utf8(b"LA"), Utf8(b"La/B;"), Utf8(b"sandbox/A"), Text(6), Class(3), NameAndType(5, 2), Text(5), MethodType(15), NameAndType(5, 3), MethodType(15), Utf8(b"(ILsandbox/a/B;[Lsandbox/A;)Lsandbox/I;"), Utf8(b"Lsandbox/a/B;")], &[15, 16]),
    (&[(b"\x00\x06\x01\x00\x03LA;\x01\x00\x03a/B\x01\x00\x02[I\x07\x00\x03\x08\x00\x03", 1)], &[], &[], &[Utf8(b"LA;"), Utf8(b"a/B"), Utf8(b"[I"), Class(3), Text(3)], &[]),
    (&[(b"\x00\x0d\x01\x00\x03a/B\x01\x00\x0bLsandbox/A;\x01\x00\x03LI;\x01\x00\x06(LA;)V\x01\x00\x01I\x07\x00\x01\x07\x00\x01\x0c\x00\x05\x00\x03\x10\x00\x04\x08\x00\x05\x07\x00\x01\x0c\x00\x05\x00\x05", 1)], &[2], &[b"sandbox/a/B", b"Lsandbox/I;", b"(Lsandbox/A;)V", b"Lsandbox/sandbox/A;"], &[Utf8(b"a/B"), Utf8(b"Lsandbox/A;"), Utf8(b"LI;"), Utf8(b"(LA;)V"), Utf8(b"I"), Class(13), Class(13), NameAndType(5, 14), MethodType(15), Text(5), Class(13), NameAndType(5, 5), Utf8(b"sandbox/a/B"), Utf8(b"Lsandbox/I;"), Utf8(b"(Lsandbox/A;)V"), Utf8(b"Lsandbox/sandbox/A;")], &[16]),
    (&[(b"\x00\x0a\x01\x00\x03()V\x01\x00\x02LA\x01\x00\x02LA\x01\x00\x01I\x01\x00\x03LA;\x0c\x00\x03\x00\x04\x0c\x00\x01\x00\x01\x0c\x00\x03\x00\x04\x10\x00\x01", 1)], &[1, 4, 1], &[], &[Utf8(b"()V"), Utf8(b"LA"), Utf8(b"LA"), Utf8(b"I"), Utf8(b"LA;"), NameAndType(3, 4), NameAndType(1, 1), NameAndType(3, 4), MethodType(1)], &[1, 4, 1]),
    (&[(b"\x00\x06\x01\x00\x03LA;\x01\x00\x03LA;\x01\x00\x03LA;\x01\x00\x0bLsandbox/A;\x08\x00\x02", 1)], &[1], &[b"Lsandbox/A;"], &[Utf8(b"LA;"), Utf8(b"LA;"), Utf8(b"LA;"), Utf8(b"Lsandbox/A;"), Text(2), Utf8(b"Lsandbox/A;")], &[6]),
    (&[(b"\x00\x08\x01\x00\x05La/B;\x01\x00\x01I\x01\x00\x03a/B\x01\x00\x03LA;\x01\x00\x03LI;\x01\x00\x02[I\x01\x00\x05La/B;", 1)], &[7], &[b"Lsandbox/a/B;"], &[Utf8(b"La/B;"), Utf8(b"I"), Utf8(b"a/B"), Utf8(b"LA;"), Utf8(b"LI;"), Utf8(b"[I"), Utf8(b"La/B;"), Utf8(b"Lsandbox/a/B;")], &[8]),
    (&[(b"\x00\x0c\x01\x00\x04[LA;\x01\x00\x07[[La/B;\x01\x00\x09sandbox/A\x01\x00\x04[LA;\x01\x00\x02[I\x01\x00\x0f(ILa/B;[LA;)LI;\x01\x00\x01A\x07\x00\x02\x07\x00\x03\x07\x00\x03\x07\x00\x01", 1)], &[1, 4, 4], &[b"[[Lsandbox/a/B;", b"sandbox/sandbox/A", b"[Lsandbox/A;"], &[Utf8(b"[LA;"), Utf8(b"[[La/B;"), Utf8(b"sandbox/A"), Utf8(b"[LA;"), Utf8(b"[I"), Utf8(b"(ILa/B;[LA;)LI;"), Utf8(b"A"), Class(12), Class(13), Class(13), Class(14), Utf8(b"[[Lsandbox/a/B;"), Utf8(b"sandbox/sandbox/A"), Utf8(b"[Lsandbox/A;")], &[14, 14, 14]),
    (&[(b"\x00\x0a\x01\x00\x02[I\x01\x00\x05La/B;\x01\x00\x02LA\x01\x00\x03LI;\x01\x00\x03()V\x01\x00\x02LA\x0c\x00\x03\x00\x01\x07\x00\x05\x07\x00\x01", 1)], &[1, 1], &[b"sandbox/()V"], &[Utf8(b"[I"), Utf8(b"La/B;"), Utf8(b"LA"), Utf8(b"LI;"), Utf8(b"()V"), Utf8(b"LA"), NameAndType(3, 1), Class(10), Class(1), Utf8(b"sandbox/()V")], &[1, 1]),
];

#[rattlefmt::skip]
const THIRD: [Row; 15] = [
    (&[(b"\x00\x03\x01\x00\x03LI;\x01\x00\x09sandbox/A", 1)], &[1], &[b"Lsandbox/I;"], &[Utf8(b"LI;"), Utf8(b"sandbox/A"), Utf8(b"Lsandbox/I;")], &[3]),
    (&[(b"\x00\x0f\x01\x00\x07[[La/B;\x01\x00\x01A\x01\x00\x09sandbox/A\x01\x00\x0f(ILa/B;[LA;)LI;\x01\x00\x05La/B;\x01\x00\x07[[La/B;\x01\x00\x03LI;\x07\x00\x01\x08\x00\x03\x10\x00\x04\x07\x00\x06\x07\x00\x01\x07\x00\x06\x08\x00\x04", 1)], &[7, 6, 6], &[b"[[Lsandbox/a/B;", b"(ILsandbox/a/B;[Lsandbox/A;)Lsandbox/I;", b"Lsandbox/I;"], &[Utf8(b"[[La/B;"), Utf8(b"A"), Utf8(b"sandbox/A"), Utf8(b"(ILa/B;[LA;)LI;"), Utf8(b"La/B;"), Utf8(b"[[La/B;"), Utf8(b"LI;"), Class(15), Text(3), MethodType(16), Class(15), Class(15), Class(15), Text(4), Utf8(b"[[Lsandbox/a/B;"), Utf8(b"(ILsandbox/a/B;[Lsandbox/A;)Lsandbox/I;"), Utf8(b"Lsandbox/I;")], &[17, 15, 15]),
    (&[(b"\x00\x08\x01\x00\x02[I\x01\x00\x0f(ILa/B;[LA;)LI;\x01\x00\x07[[La/B;\x01\x00\x02[I\x07\x00\x01\x07\x00\x03\x07\x00\x04", 1)], &[3, 2, 3], &[b"[[Lsandbox/a/B;", b"(ILsandbox/a/B;[Lsandbox/A;)Lsandbox/I;"], &[Utf8(b"[I"), Utf8(b"(ILa/B;[LA;)LI;"), Utf8(b"[[La/B;"), Utf8(b"[I"), Class(1), Class(8), Class(4), Utf8(b"[[Lsandbox/a/B;"), Utf8(b"(ILsandbox/a/B;[Lsandbox/A;)Lsandbox/I;")], &[8, 9, 8]),
    (&[(b"\x00\x03\x01\x00\x04[LA;\x01\x00\x0bLsandbox/A;", 1)], &[], &[], &[Utf8(b"[LA;"), Utf8(b"Lsandbox/A;")], &[]),
    (&[(b"\x00\x06\x01\x00\x02LA\x01\x00\x01I\x01\x00\x02[I\x01\x00\x03a/B\x07\x00\x04", 1)], &[3], &[b"sandbox/a/B"], &[Utf8(b"LA"), Utf8(b"I"), Utf8(b"[I"), Utf8(b"a/B"), Class(6), Utf8(b"sandbox/a/B")], &[3]),
    (&[(b"\x00\x06\x01\x00\x04[LA;\x01\x00\x04[LA;\x01\x00\x07[[La/B;\x01\x00\x02[J\x07\x00\x01", 1)], &[1, 4], &[b"[Lsandbox/A;"], &[Utf8(b"[LA;"), Utf8(b"[LA;"), Utf8(b"[[La/B;"), Utf8(b"[J"), Class(6), Utf8(b"[Lsandbox/A;")], &[6, 4]),
    (&[(b"\x00\x0c\x01\x00\x03()V\x01\x00\x09sandbox/A\x01\x00\x01x\x01\x00\x06(LA;)V\x0c\x00\x01\x00\x01\x07\x00\x03\x0c\x00\x03\x00\x04\x0c\x00\x03\x00\x04\x07\x00\x02\x07\x00\x01\x0c\x00\x01\x00\x04", 1)], &[1, 1, 4], &[b"sandbox/x", b"(Lsandbox/A;)V", b"sandbox/sandbox/A", b"sandbox/()V"], &[Utf8(b"()V"), Utf8(b"sandbox/A"), Utf8(b"x"), Utf8(b"(LA;)V"), NameAndType(1, 1), Class(12), NameAndType(3, 13), NameAndType(3, 13), Class(14), Class(15), NameAndType(1, 13), Utf8(b"sandbox/x"), Utf8(b"(Lsandbox/A;)V"), Utf8(b"sandbox/sandbox/A"), Utf8(b"sandbox/()V")], &[1, 1, 13]),
    (&[(b"\x00\x08\x01\x00\x03a/B\x01\x00\x0f(ILa/B;[LA;)LI;\x01\x00\x03a/B\x07\x00\x03\x07\x00\x01\x08\x00\x03\x07\x00\x01", 1)], &[2, 2, 2], &[b"sandbox/a/B", b"(ILsandbox/a/B;[Lsandbox/A;)Lsandbox/I;"], &[Utf8(b"a/B"), Utf8(b"(ILa/B;[LA;)LI;"), Utf8(b"a/B"), Class(8), Class(8), Text(3), Class(8), Utf8(b"sandbox/a/B"), Utf8(b"(ILsandbox/a/B;[Lsandbox/A;)Lsandbox/I;")], &[9, 9, 9]),
    (&[(b"\x00\x0f\x01\x00\x02[J\x01\x00\x02[I\x01\x00\x03a/B\x01\x00\x01x\x01\x00\x01I\x01\x00\x03LA;\x01\x00\x01A\x01\x00\x0bLsandbox/A;\x07\x00\x03\x08\x00\x04\x0c\x00\x04\x00\x08\x0c\x00\x07\x00\x01\x07\x00\x01\x0c\x00\x05\x00\x05", 1)], &[], &[b"sandbox/a/B", b"Lsandbox/sandbox/A;"], &[Utf8(b"[J"), Utf8(b"[I"), Utf8(b"a/B"), Utf8(b"x"), Utf8(b"I"), Utf8(b"LA;"), Utf8(b"A"), Utf8(b"Lsandbox/A;"), Class(15), Text(4), NameAndType(4, 16), NameAndType(7, 1), Class(1), NameAndType(5, 5), Utf8(b"sandbox/a/B"), Utf8(b"Lsandbox/sandbox/A;")], &[]),
    (&[(b"\x00\x08\x01\x00\x02[J\x01\x00\x03a/B\x01\x00\x01I\x01\x00\x01I\x01\x00\x03()V\x08\x00\x02\x08\x00\x03", 1)], &[5], &[], &[Utf8(b"[J"), Utf8(b"a/B"), Utf8(b"I"), Utf8(b"I"), Utf8(b"()V"), Text(2), Text(3)], &[5]),
    (&[(b"\x00\x0f\x01\x00\x01x\x01\x00\x01I\x01\x00\x0bLsandbox/A;\x01\x00\x07[[La/B;\x01\x00\x02[J\x01\x00\x03()V\x01\x00\x01A\x01\x00\x03LA;\x0c\x00\x01\x00\x08\x07\x00\x02\x10\x00\x06\x07\x00\x02\x08\x00\x07\x07\x00\x07", 1)], &[6], &[b"Lsandbox/A;", b"sandbox/I", b"sandbox/A"], &[Utf8(b"x"), Utf8(b"I"), Utf8(b"Lsandbox/A;"), Utf8(b"[[La/B;"), Utf8(b"[J"), Utf8(b"()V"), Utf8(b"A"), Utf8(b"LA;"), NameAndType(1, 15), Class(16), MethodType(6), Class(16), Text(7), Class(17), Utf8(b"Lsandbox/A;"), Utf8(b"sandbox/I"), Utf8(b"sandbox/A")], &[6]),
    (&[(b"\x00\x08\x01\x00\x05La/B;\x01\x00\x01I\x01\x00\x0f(ILa/B;[LA;)LI;\x01\x00\x02[J\x0c\x00\x02\x00\x01\x07\x00\x02\x0c\x00\x02\x00\x04", 1)], &[3, 3], &[b"Lsandbox/a/B;", b"sandbox/I", b"(ILsandbox/a/B;[Lsandbox/A;)Lsandbox/I;"], &[Utf8(b"La/B;"), Utf8(b"I"), Utf8(b"(ILa/B;[LA;)LI;"), Utf8(b"[J"), NameAndType(2, 8), Class(9), NameAndType(2, 4), Utf8(b"Lsandbox/a/B;"), Utf8(b"sandbox/I"), Utf8(b"(ILsandbox/a/B;[Lsandbox/A;)Lsandbox/I;")], &[10, 10]),
    (&[(b"\x00\x0d\x01\x00\x0bLsandbox/A;\x01\x00\x02[I\x01\x00\x05La/B;\x01\x00\x01I\x01\x00\x02LA\x01\x00\x01I\x01\x00\x03LI;\x07\x00\x04\x07\x00\x05\x07\x00\x06\x0c\x00\x05\x00\x07\x07\x00\x04", 1)], &[7, 7, 6], &[b"sandbox/I", b"sandbox/LA", b"Lsandbox/I;"], &[Utf8(b"Lsandbox/A;"), Utf8(b"[I"), Utf8(b"La/B;"), Utf8(b"I"), Utf8(b"LA"), Utf8(b"I"), Utf8(b"LI;"), Class(13), Class(14), Class(13), NameAndType(5, 15), Class(13), Utf8(b"sandbox/I"), Utf8(b"sandbox/LA"), Utf8(b"Lsandbox/I;")], &[15, 15, 6]),
    (&[(b"\x00\x05\x01\x00\x01A\x01\x00\x05La/B;\x01\x00\x02LA\x01\x00\x09sandbox/A", 1)], &[2, 2, 2], &[b"Lsandbox/a/B;"], &[Utf8(b"A"), Utf8(b"La/B;"), Utf8(b"LA"), Utf8(b"sandbox/A"), Utf8(b"Lsandbox/a/B;")], &[5, 5, 5]),
    (&[(b"\x00\x0c\x01\x00\x09sandbox/A\x01\x00\x03a/B\x01\x00\x03LI;\x01\x00\x03LI;\x01\x00\x05La/B;\x01\x00\x07[[La/B;\x01\x00\x03LA;\x01\x00\x06(LA;)V\x07\x00\x02\x07\x00\x02\x07\x00\x02", 1)], &[7], &[b"sandbox/a/B", b"Lsandbox/A;"], &[Utf8(b"sandbox/A"), Utf8(b"a/B"), Utf8(b"LI;"), Utf8(b"LI;"), Utf8(b"La/B;"), Utf8(b"[[La/B;"), Utf8(b"LA;"), Utf8(b"(LA;)V"), Class(12), Class(12), Class(12), Utf8(b"sandbox/a/B"), Utf8(b"Lsandbox/A;")], &[13]),
];

#[rattlefmt::skip]
const FOURTH: [Row; 15] = [
    (&[(b"\x00\x06\x01\x00\x05La/B;\x01\x00\x02[I\x08\x00\x02\x07\x00\x02\x07\x00\x02", 1)], &[2], &[], &[Utf8(b"La/B;"), Utf8(b"[I"), Text(2), Class(2), Class(2)], &[2]),
    (&[(b"\x00\x0c\x01\x00\x06(LA;)V\x01\x00\x01A\x01\x00\x03LA;\x01\x00\x0bLsandbox/A;\x01\x00\x01x\x07\x00\x05\x07\x00\x05\x08\x00\x04\x0c\x00\x05\x00\x03\x0c\x00\x02\x00\x01\x07\x00\x02", 1)], &[1, 4, 3], &[b"sandbox/x", b"Lsandbox/A;", b"(Lsandbox/A;)V", b"sandbox/A", b"Lsandbox/sandbox/A;"], &[Utf8(b"(LA;)V"), Utf8(b"A"), Utf8(b"LA;"), Utf8(b"Lsandbox/A;"), Utf8(b"x"), Class(12), Class(12), Text(4), NameAndType(5, 13), NameAndType(2, 14), Class(15), Utf8(b"sandbox/x"), Utf8(b"Lsandbox/A;"), Utf8(b"(Lsandbox/A;)V"), Utf8(b"sandbox/A"), Utf8(b"Lsandbox/sandbox/A;")], &[14, 16, 13]),
    (&[(b"\x00\x06\x01\x00\x01A\x01\x00\x02[I\x07\x00\x01\x0c\x00\x01\x00\x02\x07\x00\x02", 1)], &[], &[b"sandbox/A"], &[Utf8(b"A"), Utf8(b"[I"), Class(6), NameAndType(1, 2), Class(2), Utf8(b"sandbox/A")], &[]),
    (&[(b"\x00\x0c\x01\x00\x0bLsandbox/A;\x01\x00\x02[I\x01\x00\x09sandbox/A\x01\x00\x01A\x01\x00\x02LA\x01\x00\x05La/B;\x01\x00\x03a/B\x0c\x00\x04\x00\x06\x08\x00\x01\x07\x00\x02\x07\x00\x05", 1)], &[], &[b"Lsandbox/a/B;", b"sandbox/LA"], &[Utf8(b"Lsandbox/A;"), Utf8(b"[I"), Utf8(b"sandbox/A"), Utf8(b"A"), Utf8(b"LA"), Utf8(b"La/B;"), Utf8(b"a/B"), NameAndType(4, 12), Text(1), Class(2), Class(13), Utf8(b"Lsandbox/a/B;"), Utf8(b"sandbox/LA")], &[]),
    (&[(b"\x00\x08\x01\x00\x06(LA;)V\x01\x00\x01I\x01\x00\x0f(ILa/B;[LA;)LI;\x01\x00\x02LA\x01\x00\x01x\x01\x00\x03a/B\x01\x00\x01I", 1)], &[2], &[], &[Utf8(b"(LA;)V"), Utf8(b"I"), Utf8(b"(ILa/B;[LA;)LI;"), Utf8(b"LA"), Utf8(b"x"), Utf8(b"a/B"), Utf8(b"I")], &[2]),
    (&[(b"\x00\x07\x01\x00\x09sandbox/A\x01\x00\x04[LA;\x01\x00\x05La/B;\x01\x00\x01I\x07\x00\x02\x0c\x00\x04\x00\x02", 1)], &[2, 4, 2], &[b"[Lsandbox/A;"], &[Utf8(b"sandbox/A"), Utf8(b"[LA;"), Utf8(b"La/B;"), Utf8(b"I"), Class(7), NameAndType(4, 7), Utf8(b"[Lsandbox/A;")], &[7, 4, 7]),
    (&[(b"\x00\x05\x01\x00\x06(LA;)V\x01\x00\x04[LA;\x07\x00\x02\x07\x00\x02", 1)], &[], &[b"[Lsandbox/A;"], &[Utf8(b"(LA;)V"), Utf8(b"[LA;"), Class(5), Class(5), Utf8(b"[Lsandbox/A;")], &[]),
    (&[(b"\x00\x08\x01\x00\x05La/B;\x01\x00\x0bLsandbox/A;\x01\x00\x02[I\x01\x00\x09sandbox/A\x01\x00\x01I\x08\x00\x02\x08\x00\x03", 1)], &[], &[], &[Utf8(b"La/B;"), Utf8(b"Lsandbox/A;"), Utf8(b"[I"), Utf8(b"sandbox/A"), Utf8(b"I"), Text(2), Text(3)], &[]),
    (&[(b"\x00\x05\x01\x00\x0f(ILa/B;[LA;)LI;\x01\x00\x01I\x01\x00\x02LA\x0c\x00\x02\x00\x02", 1)], &[2, 1], &[b"(ILsandbox/a/B;[Lsandbox/A;)Lsandbox/I;"], &[Utf8(b"(ILa/B;[LA;)LI;"), Utf8(b"I"), Utf8(b"LA"), NameAndType(2, 2), Utf8(b"(ILsandbox/a/B;[Lsandbox/A;)Lsandbox/I;")], &[2, 5]),
    (&[(b"\x00\x08\x01\x00\x0f(ILa/B;[LA;)LI;\x01\x00\x09sandbox/A\x01\x00\x02[J\x01\x00\x03()V\x01\x00\x02LA\x01\x00\x01I\x07\x00\x06", 1)], &[1], &[b"sandbox/I", b"(ILsandbox/a/B;[Lsandbox/A;)Lsandbox/I;"], &[Utf8(b"(ILa/B;[LA;)LI;"), Utf8(b"sandbox/A"), Utf8(b"[J"), Utf8(b"()V"), Utf8(b"LA"), Utf8(b"I"), Class(8), Utf8(b"sandbox/I"), Utf8(b"(ILsandbox/a/B;[Lsandbox/A;)Lsandbox/I;")], &[9]),
    (&[(b"\x00\x09\x01\x00\x03LA;\x01\x00\x04[LA;\x01\x00\x03LI;\x07\x00\x02\x08\x00\x03\x07\x00\x02\x07\x00\x02\x07\x00\x02", 1)], &[], &[b"[Lsandbox/A;"], &[Utf8(b"LA;"), Utf8(b"[LA;"), Utf8(b"LI;"), Class(9), Text(3), Class(9), Class(9), Class(9), Utf8(b"[Lsandbox/A;")], &[]),
    (&[(b"\x00\x0e\x01\x00\x06(LA;)V\x01\x00\x01I\x01\x00\x07[[La/B;\x01\x00\x0f(ILa/B;[LA;)LI;\x01\x00\x07[[La/B;\x01\x00\x01x\x0c\x00\x06\x00\x05\x08\x00\x01\x0c\x00\x02\x00\x04\x07\x00\x03\x0c\x00\x02\x00\x02\x07\x00\x05\x07\x00\x02", 1)], &[4], &[b"[[Lsandbox/a/B;", b"(ILsandbox/a/B;[Lsandbox/A;)Lsandbox/I;", b"sandbox/I"], &[Utf8(b"(LA;)V"), Utf8(b"I"), Utf8(b"[[La/B;"), Utf8(b"(ILa/B;[LA;)LI;"), Utf8(b"[[La/B;"), Utf8(b"x"), NameAndType(6, 14), Text(1), NameAndType(2, 15), Class(14), NameAndType(2, 2), Class(14), Class(16), Utf8(b"[[Lsandbox/a/B;"), Utf8(b"(ILsandbox/a/B;[Lsandbox/A;)Lsandbox/I;"), Utf8(b"sandbox/I")], &[15]),
    (&[(b"\x00\x09\x01\x00\x04[LA;\x01\x00\x0bLsandbox/A;\x01\x00\x03a/B\x01\x00\x04[LA;\x01\x00\x07[[La/B;\x01\x00\x03LA;\x07\x00\x01\x07\x00\x05", 1)], &[2, 5, 6], &[b"[Lsandbox/A;", b"[[Lsandbox/a/B;", b"Lsandbox/sandbox/A;", b"Lsandbox/A;"], &[Utf8(b"[LA;"), Utf8(b"Lsandbox/A;"), Utf8(b"a/B"), Utf8(b"[LA;"), Utf8(b"[[La/B;"), Utf8(b"LA;"), Class(9), Class(10), Utf8(b"[Lsandbox/A;"), Utf8(b"[[Lsandbox/a/B;"), Utf8(b"Lsandbox/sandbox/A;"), Utf8(b"Lsandbox/A;")], &[11, 10, 12]),
    (&[(b"\x00\x0a\x01\x00\x0bLsandbox/A;\x01\x00\x01I\x01\x00\x03()V\x07\x00\x02\x0c\x00\x03\x00\x01\x0c\x00\x02\x00\x03\x10\x00\x03\x10\x00\x03\x0c\x00\x03\x00\x01", 1)], &[3], &[b"sandbox/I", b"Lsandbox/sandbox/A;"], &[Utf8(b"Lsandbox/A;"), Utf8(b"I"), Utf8(b"()V"), Class(10), NameAndType(3, 11), NameAndType(2, 3), MethodType(3), MethodType(3), NameAndType(3, 11), Utf8(b"sandbox/I"), Utf8(b"Lsandbox/sandbox/A;")], &[3]),
    (&[(b"\x00\x0c\x01\x00\x01I\x01\x00\x03LI;\x01\x00\x03()V\x01\x00\x03a/B\x08\x00\x04\x10\x00\x03\x0c\x00\x03\x00\x02\x07\x00\x03\x07\x00\x03\x07\x00\x03\x07\x00\x01", 1)], &[2, 1], &[b"Lsandbox/I;", b"sandbox/()V", b"sandbox/I"], &[Utf8(b"I"), Utf8(b"LI;"), Utf8(b"()V"), Utf8(b"a/B"), Text(4), MethodType(3), NameAndType(3, 12), Class(13), Class(13), Class(13), Class(14), Utf8(b"Lsandbox/I;"), Utf8(b"sandbox/()V"), Utf8(b"sandbox/I")], &[12, 1]),
];

fn is_desc_index(pool: &Pool<'_>, index: u16) -> bool
    ensures { IsTrue result → IsDescIndex pool.now index }
{
    match pool.text(index) {
        Some(text) => is_descriptor(text),
        None => false,
    }
}

/// Whether each index is that of a descriptor.
pub fn are_descriptors(pool: &Pool<'_>, descs: &[u16]) -> bool
    ensures { IsTrue result → All (IsDescIndex pool.now) descs.now }
{
    descs.iter().all(|index| is_desc_index(pool, *index))
}

fn are_texts(texts: &Texts, wanted: &[&[u8]]) -> bool {
    if texts.count() != wanted.len() {
        return false;
    }
    for place in 0..texts.count() {
        if texts.get(place) != wanted[place] {
            return false;
        }
    }
    true
}

/// Whether these are the constants.
pub fn are_entries(alloc: Global, entries: &[Entry<'_>], wanted: &[Entry<'_>]) -> Option<bool> {
    let one = format!(in alloc; "{entries:?}").ok()?;
    let other = format!(in alloc; "{wanted:?}").ok()?;
    Some(one.as_str() == other.as_str())
}

// Whether these are the pool's texts, and those are the constants and indexes with them.
fn are_renamed(alloc: Global, pool: &Pool<'_>, texts: &Texts, row: &Row) -> Option<bool>
    requires valid { IsPool pool.now }
    requires described { All (IsDescIndex pool.now) row.now.1.now }
    requires appended { AreAppended pool.now row.now.1.now texts.now }
{
    let renamed = rename_pool(alloc, pool, row.1, texts).ok()?;
    let same = are_entries(alloc, renamed.pool.as_slice(), row.3)?;
    Some(same && are_texts(texts, row.2) && renamed.descs.as_slice() == row.4)
}

fn is_renamed(alloc: Global, row: &Row) -> Option<bool> {
    let bytes = bytes_of(alloc, row.0).ok()?;
    if bytes.len() > 999 {
        return None;
    }
    let (pool, _) = read_pool(alloc, &bytes, 0).ok()?;
    if !are_descriptors(&pool, row.1) {
        return None;
    }
    let texts = rename_texts(alloc, &pool, row.1).ok()?;
    are_renamed(alloc, &pool, &texts, row)
}

#[test]
fn first(rt: HostRuntime) {
    for row in &FIRST {
        assert!(rt; is_renamed(rt.alloc(), row) == Some(true));
    }
}

#[test]
fn second(rt: HostRuntime) {
    for row in &SECOND {
        assert!(rt; is_renamed(rt.alloc(), row) == Some(true));
    }
}

#[test]
fn third(rt: HostRuntime) {
    for row in &THIRD {
        assert!(rt; is_renamed(rt.alloc(), row) == Some(true));
    }
}

#[test]
fn fourth(rt: HostRuntime) {
    for row in &FOURTH {
        assert!(rt; is_renamed(rt.alloc(), row) == Some(true));
    }
}
