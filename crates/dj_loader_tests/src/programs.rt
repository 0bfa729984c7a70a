// Classes as texts for the assembler.

pub const LONE_A: &[u8] = b".class 21 A\n\
    .super java/lang/Object\n";

pub const LACKING_A: &[u8] = b".class 601 A\n\
    .super x/Missing\n";

pub const LONE_B: &[u8] = b".class 21 B\n\
    .super A\n\
    .implements I\n";

pub const LONE_I: &[u8] = b".class 601 I\n\
    .super java/lang/Object\n";

pub const M: &[u8] = b".class 21 M\n\
    .super x/Missing\n";

pub const L: &[u8] = b".class 21 L\n\
    .super java/lang/Object\n\
    .implements z/I\n";

pub const N: &[u8] = b".class 21 N\n\
    .super I\n";

pub const F: &[u8] = b".class 21 F\n\
    .super java/lang/String\n";

pub const O: &[u8] = b".class 21 O\n\
    .super P\n";

pub const P: &[u8] = b".class 21 P\n\
    .super Q\n";

pub const Q: &[u8] = b".class 21 Q\n\
    .super P\n";

pub const S: &[u8] = b".class 21 S\n\
    .super S\n";

pub const T: &[u8] = b".class 601 T\n\
    .super java/lang/Object\n\
    .implements T\n";

pub const U: &[u8] = b".class 601 U\n\
    .super java/lang/Object\n\
    .implements V\n";

pub const V: &[u8] = b".class 601 V\n\
    .super java/lang/Object\n\
    .implements U\n";

pub const W: &[u8] = b".class 21 W\n\
    .super java/lang/Object\n\
    .implements X\n";

pub const RING_X: &[u8] = b".class 21 X\n\
    .super W\n";

pub const OBJECT: &[u8] = b".class 21 java/lang/Object\n\
    .super java/lang/Error\n";

pub const THREAD: &[u8] = b".class 21 java/lang/Thread\n\
    .super java/lang/Object\n";

pub const STOP: &[u8] = b".class 21 djvm/Stop\n\
    .super sandbox/java/lang/Object\n";

/// A program: classes, interfaces, and a class with code that names what is there and what is not.
pub const IMAGE: [&[u8]; 7] = [
    b".class 421 A\n\
        .super java/lang/Object\n\
        .implements I\n\
        .field 1 i I\n\
        .field 9 s I int 7\n\
        .field 2 p J\n\
        .method 1 m ()V\n\
        .stack 1\n\
        .locals 1\n\
        return\n\
        .end\n\
        .method 2 priv ()V\n\
        .stack 1\n\
        .locals 1\n\
        aconst_null\n\
        checkcast [[[J\n\
        pop\n\
        return\n\
        .end\n\
        .method 9 st ()V\n\
        .stack 1\n\
        .locals 1\n\
        return\n\
        .end\n\
        .abstract 401 abs ()V\n\
        .method 1 over (I)I\n\
        .stack 1\n\
        .locals 2\n\
        iload_1\n\
        ireturn\n\
        .end\n",
    b".class 21 p/B\n\
        .super A\n\
        .implements J\n\
        .field 1 i I\n\
        .field 9 c Ljava/lang/String; string \"c\\u0000\"\n\
        .field 9 l J long -5\n\
        .method 1 m ()V\n\
        .stack 1\n\
        .locals 1\n\
        return\n\
        .end\n\
        .method 2 over (I)I\n\
        .stack 1\n\
        .locals 2\n\
        iload_1\n\
        ireturn\n\
        .end\n\
        .method 9 st ()V\n\
        .stack 1\n\
        .locals 1\n\
        return\n\
        .end\n\
        .method 1 abs ()V\n\
        .stack 1\n\
        .locals 1\n\
        return\n\
        .end\n\
        .method 1 priv ()V\n\
        .stack 1\n\
        .locals 1\n\
        return\n\
        .end\n",
    b".class 21 C\n\
        .super p/B\n\
        .implements K\n\
        .field 1 z [[LC;\n\
        .method 1 over (I)I\n\
        .stack 1\n\
        .locals 2\n\
        iload_1\n\
        ireturn\n\
        .end\n\
        .method 9 m ()V\n\
        .stack 1\n\
        .locals 1\n\
        return\n\
        .end\n\
        .method 1 q ()V\n\
        .stack 1\n\
        .locals 1\n\
        return\n\
        .end\n",
    b".class 601 I\n\
        .super java/lang/Object\n\
        .field 19 k I int 1\n\
        .field 19 d I\n\
        .abstract 401 q ()V\n\
        .abstract 401 abs ()V\n\
        .abstract 401 hashCode ()I\n",
    b".class 601 J\n\
        .super java/lang/Object\n\
        .implements I\n\
        .field 19 k I int 2\n\
        .field 19 j J\n\
        .abstract 401 r ()V\n\
        .abstract 409 sj ()V\n\
        .abstract 402 pj ()V\n",
    b".class 601 K\n\
        .super java/lang/Object\n\
        .field 19 j J\n\
        .abstract 401 r ()V\n\
        .abstract 401 only ()V\n",
    b".class 21 x/X\n\
        .super java/lang/IllegalStateException\n\
        .field 1 own I\n\
        .field 8 st [I\n\
        .field 8 e Lx/X; int 5\n\
        .method 9 all (Ljava/lang/Object;)V\n\
        .stack 9\n\
        .locals 3\n\
        A:\n\
        ldc int -3\n\
        pop\n\
        ldc_w string \"a\\u20ac\"\n\
        pop\n\
        ldc2_w long 9\n\
        pop2\n\
        ldc class A\n\
        pop\n\
        getstatic C k I\n\
        pop\n\
        getstatic p/B c Ljava/lang/String;\n\
        pop\n\
        new C\n\
        dup\n\
        invokevirtual C over (I)I\n\
        pop\n\
        invokevirtual A abs ()V\n\
        invokeinterface J q ()V\n\
        invokestatic x/Y m ()V\n\
        invokestatic A nope ()V\n\
        invokespecial java/lang/Object <init> ()V\n\
        invokevirtual [LC; hashCode ()I\n\
        iconst_1\n\
        newarray int\n\
        pop\n\
        iconst_1\n\
        anewarray C\n\
        pop\n\
        iconst_1\n\
        anewarray [[I\n\
        pop\n\
        aload_0\n\
        checkcast [LI;\n\
        pop\n\
        aload_0\n\
        instanceof x/Y\n\
        pop\n\
        getstatic x/X own I\n\
        pop\n\
        nop\n\
        B:\n\
        return\n\
        H:\n\
        .frame stack1 ref:java/lang/Throwable\n\
        pop\n\
        return\n\
        .catch any A B H\n\
        .catch x/X A B H\n\
        .catch x/Y A B H\n\
        .catch [LA; A B H\n\
        .catch java/lang/Error A B H\n\
        .end\n\
        .method 1 none ()V\n\
        .stack 0\n\
        .locals 1\n\
        return\n\
        .end\n",
];

/// A class with a field and a method of a long name, and a class below it that names them, and a name that differs in the last byte.
pub const LONG_NAMED: [&[u8]; 2] = [
    b".class 421 l/Long\n\
        .super java/lang/Object\n\
        .field 9 aLongNameoooooooooooooooooooooooooooooooooooooooooo\
        ooooooooooooooooooooooooooooooooooooooooooooooooooo\
        ooooooooooooooooooooooooooooooooooooooooooooooooooo\
        ooooooooooooooooooooooooooooooooooooooooooooooooooo I\n\
        .abstract 401 aLongNameoooooooooooooooooooooooooooooooooooooooooo\
        ooooooooooooooooooooooooooooooooooooooooooooooooooo\
        ooooooooooooooooooooooooooooooooooooooooooooooooooo\
        ooooooooooooooooooooooooooooooooooooooooooooooooooo ()V\n",
    b".class 421 l/Low\n\
        .super l/Long\n\
        .method 9 all (Ljava/lang/Object;)V\n\
        .stack 9\n\
        .locals 1\n\
        aload_0\n\
        checkcast l/Low\n\
        astore_0\n\
        invokevirtual l/Low aLongNameoooooooooooooooooooooooooooooooooooooooooo\
        ooooooooooooooooooooooooooooooooooooooooooooooooooo\
        ooooooooooooooooooooooooooooooooooooooooooooooooooo\
        ooooooooooooooooooooooooooooooooooooooooooooooooooo ()V\n\
        invokevirtual l/Long aLongNameoooooooooooooooooooooooooooooooooooooooooo\
        ooooooooooooooooooooooooooooooooooooooooooooooooooo\
        ooooooooooooooooooooooooooooooooooooooooooooooooooo\
        ooooooooooooooooooooooooooooooooooooooooooooooooooo ()V\n\
        invokevirtual [I aLongNameoooooooooooooooooooooooooooooooooooooooooo\
        ooooooooooooooooooooooooooooooooooooooooooooooooooo\
        ooooooooooooooooooooooooooooooooooooooooooooooooooo\
        ooooooooooooooooooooooooooooooooooooooooooooooooooo ()V\n\
        invokevirtual l/Low aLongNameoooooooooooooooooooooooooooooooooooooooooo\
        ooooooooooooooooooooooooooooooooooooooooooooooooooo\
        ooooooooooooooooooooooooooooooooooooooooooooooooooo\
        ooooooooooooooooooooooooooooooooooooooooooooooooooo (I)V\n\
        invokevirtual l/Low aLongNameoooooooooooooooooooooooooooooooooooooooooo\
        ooooooooooooooooooooooooooooooooooooooooooooooooooo\
        ooooooooooooooooooooooooooooooooooooooooooooooooooo\
        oooooooooooooooooooooooooooooooooooooooooooooooooox ()V\n\
        getstatic l/Low aLongNameoooooooooooooooooooooooooooooooooooooooooo\
        ooooooooooooooooooooooooooooooooooooooooooooooooooo\
        ooooooooooooooooooooooooooooooooooooooooooooooooooo\
        ooooooooooooooooooooooooooooooooooooooooooooooooooo I\n\
        pop\n\
        return\n\
        .end\n",
];

// The class A with a method that takes an array of bytes and returns it.
pub const RETURNING: &[u8] = b".class 21 A\n\
    .super java/lang/Object\n\
    .method 9 verify ([B)[B\n\
    .stack 1\n\
    .locals 1\n\
    aload_0\n\
    areturn\n\
    .end\n";

// There is nothing that it could return.
pub const NOTHING_RETURNED: &[u8] = b".class 21 A\n\
    .super java/lang/Object\n\
    .method 9 verify ([B)[B\n\
    .stack 1\n\
    .locals 1\n\
    areturn\n\
    .end\n";

pub const INT_RETURNED: &[u8] = b".class 21 A\n\
    .super java/lang/Object\n\
    .method 9 verify ([B)[B\n\
    .stack 1\n\
    .locals 1\n\
    iload_0\n\
    areturn\n\
    .end\n";

// It runs past its end.
pub const NOP_LAST: &[u8] = b".class 21 A\n\
    .super java/lang/Object\n\
    .method 9 verify ([B)[B\n\
    .stack 1\n\
    .locals 1\n\
    aload_0\n\
    nop\n\
    nop\n\
    .end\n";

// A method of an object, which has its argument in local variable 1.
pub const ON_OBJECT: &[u8] = b".class 21 A\n\
    .super java/lang/Object\n\
    .method 1 verify ([B)[B\n\
    .stack 1\n\
    .locals 2\n\
    aload_1\n\
    areturn\n\
    .end\n";

// A static one has it in 0.
pub const SECOND_LOCAL: &[u8] = b".class 21 A\n\
    .super java/lang/Object\n\
    .method 9 verify ([B)[B\n\
    .stack 1\n\
    .locals 2\n\
    aload_1\n\
    areturn\n\
    .end\n";

pub const PACKAGED: &[u8] = b".class 21 p/B\n\
    .super java/lang/Object\n\
    .method 9 verify ([B)[B\n\
    .stack 1\n\
    .locals 1\n\
    aload_0\n\
    ireturn\n\
    .end\n";

// It calls a method that its class doesn't have, and one of a class that isn't there.
pub const CALLING: &[u8] = b".class 21 A\n\
    .super java/lang/Object\n\
    .method 9 verify ([B)[B\n\
    .stack 1\n\
    .locals 1\n\
    aload_0\n\
    invokestatic A nope ()V\n\
    invokestatic x/Y m ()V\n\
    areturn\n\
    .end\n";

// It calls a method of Java that isn't in the library.
pub const UNLISTED: &[u8] = b".class 21 A\n\
    .super java/lang/Object\n\
    .method 9 verify ([B)[B\n\
    .stack 1\n\
    .locals 1\n\
    invokestatic java/lang/Thread yield ()V\n\
    aload_0\n\
    areturn\n\
    .end\n";
