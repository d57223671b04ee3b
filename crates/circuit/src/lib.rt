// The S-box of FIPS 197 on bit planes, by the circuit of Boyar and Peralta, with their names and in their order (`specs/Circuit`): a fixed
// sequence of operations, and no table. Plane j has bit j of 64 bytes, and a gate works on all of them at once. One block (`sub_bytes`) and
// sixteen (`sixteen`) share it.
#![tactic(auto)]

ghost use Rattle.std.specs.Prelude.{◌≡◌};
ghost use Rattle.std.specs.Int.Bits.{bit_xor, bit_and};
ghost use Rattle.paper.specs.Strings.{tab};
ghost use Rattle.paper.specs.Fips197.{sbox};
ghost use Rattle.circuit.specs.Circuit.{sums, norm, inverse16, products, outputs, entry};
ghost use Rattle.circuit.specs.Planes.{lane};

// The sums of bits of the byte: x7, which is read again as it stands, and y1 to y21.
pub fn sums(q: [u64; 8]) -> [u64; 22]
    ensures { result ≡ sums bit_xor bit_and (entry q) }
{
    let x0 = q[7];
    let x1 = q[6];
    let x2 = q[5];
    let x3 = q[4];
    let x4 = q[3];
    let x5 = q[2];
    let x6 = q[1];
    let x7 = q[0];
    let y14 = x3 ^ x5;
    let y13 = x0 ^ x6;
    let y9 = x0 ^ x3;
    let y8 = x0 ^ x5;
    let t0 = x1 ^ x2;
    let y1 = t0 ^ x7;
    let y4 = y1 ^ x3;
    let y12 = y13 ^ y14;
    let y2 = y1 ^ x0;
    let y5 = y1 ^ x6;
    let y3 = y5 ^ y8;
    let t1 = x4 ^ y12;
    let y15 = t1 ^ x5;
    let y20 = t1 ^ x1;
    let y6 = y15 ^ x7;
    let y10 = y15 ^ t0;
    let y11 = y20 ^ y9;
    let y7 = x7 ^ y11;
    let y17 = y10 ^ y11;
    let y19 = y10 ^ y8;
    let y16 = t0 ^ y11;
    let y21 = y13 ^ y16;
    let y18 = x0 ^ y16;
    [
        x7, y1, y2, y3, y4, y5, y6, y7, y8, y9, y10, y11, y12, y13, y14, y15, y16, y17, y18, y19,
        y20, y21,
    ]
}

// What is to be inverted in the field of 16: t21 to t24.
pub fn norm(y: [u64; 22]) -> [u64; 4]
    ensures { result ≡ norm bit_xor bit_and (entry y) }
{
    let t2 = y[12] & y[15];
    let t3 = y[3] & y[6];
    let t4 = t3 ^ t2;
    let t5 = y[4] & y[0];
    let t6 = t5 ^ t2;
    let t7 = y[13] & y[16];
    let t8 = y[5] & y[1];
    let t9 = t8 ^ t7;
    let t10 = y[2] & y[7];
    let t11 = t10 ^ t7;
    let t12 = y[9] & y[11];
    let t13 = y[14] & y[17];
    let t14 = t13 ^ t12;
    let t15 = y[8] & y[10];
    let t16 = t15 ^ t12;
    let t17 = t4 ^ t14;
    let t18 = t6 ^ t16;
    let t19 = t9 ^ t14;
    let t20 = t11 ^ t16;
    [t17 ^ y[20], t18 ^ y[19], t19 ^ y[21], t20 ^ y[18]]
}

// Its inverse: t29, t33, t37 and t40.
pub fn inverse16(t: [u64; 4]) -> [u64; 4]
    ensures { result ≡ inverse16 bit_xor bit_and (entry t) }
{
    let t21 = t[0];
    let t22 = t[1];
    let t23 = t[2];
    let t24 = t[3];
    let t25 = t21 ^ t22;
    let t26 = t21 & t23;
    let t27 = t24 ^ t26;
    let t28 = t25 & t27;
    let t29 = t28 ^ t22;
    let t30 = t23 ^ t24;
    let t31 = t22 ^ t26;
    let t32 = t31 & t30;
    let t33 = t32 ^ t24;
    let t34 = t23 ^ t33;
    let t35 = t27 ^ t33;
    let t36 = t24 & t35;
    let t37 = t36 ^ t34;
    let t38 = t27 ^ t36;
    let t39 = t29 & t38;
    let t40 = t25 ^ t39;
    [t29, t33, t37, t40]
}

// The inverse by the sums: z0 to z17.
pub fn products(y: [u64; 22], t: [u64; 4]) -> [u64; 18]
    ensures { result ≡ products bit_xor bit_and (entry y) (entry t) }
{
    let t29 = t[0];
    let t33 = t[1];
    let t37 = t[2];
    let t40 = t[3];
    let t41 = t40 ^ t37;
    let t42 = t29 ^ t33;
    let t43 = t29 ^ t40;
    let t44 = t33 ^ t37;
    let t45 = t42 ^ t41;
    [
        t44 & y[15],
        t37 & y[6],
        t33 & y[0],
        t43 & y[16],
        t40 & y[1],
        t29 & y[7],
        t42 & y[11],
        t45 & y[17],
        t41 & y[10],
        t44 & y[12],
        t37 & y[3],
        t33 & y[4],
        t43 & y[13],
        t40 & y[5],
        t29 & y[2],
        t42 & y[9],
        t45 & y[14],
        t41 & y[8],
    ]
}

// The affine step, whose constant 63 turns four bits over. The lowest bit, s7, comes first.
pub fn outputs(ones: u64, z: [u64; 18]) -> [u64; 8]
    ensures { result ≡ outputs bit_xor bit_and ones (entry z) }
{
    let t46 = z[15] ^ z[16];
    let t47 = z[10] ^ z[11];
    let t48 = z[5] ^ z[13];
    let t49 = z[9] ^ z[10];
    let t50 = z[2] ^ z[12];
    let t51 = z[2] ^ z[5];
    let t52 = z[7] ^ z[8];
    let t53 = z[0] ^ z[3];
    let t54 = z[6] ^ z[7];
    let t55 = z[16] ^ z[17];
    let t56 = z[12] ^ t48;
    let t57 = t50 ^ t53;
    let t58 = z[4] ^ t46;
    let t59 = z[3] ^ t54;
    let t60 = t46 ^ t57;
    let t61 = z[14] ^ t57;
    let t62 = t52 ^ t58;
    let t63 = t49 ^ t58;
    let t64 = z[4] ^ t59;
    let t65 = t61 ^ t62;
    let t66 = z[1] ^ t63;
    let s0 = t59 ^ t63;
    let s6 = t56 ^ t62 ^ ones;
    let s7 = t48 ^ t60 ^ ones;
    let t67 = t64 ^ t65;
    let s3 = t53 ^ t66;
    let s4 = t51 ^ t66;
    let s5 = t47 ^ t65;
    let s1 = t64 ^ s3 ^ ones;
    let s2 = t55 ^ t67 ^ ones;
    [s7, s6, s5, s4, s3, s2, s1, s0]
}

// The S-box of the byte in each lane.
pub fn circuit(q: [u64; 8]) -> [u64; 8]
    ensures { tab 64 (lane result) ≡ tab 64 (λ k. sbox (lane q k)) }
{
    let y = sums(q);
    let t = norm(y);
    let v = inverse16(t);
    let z = products(y, v);
    outputs(0xffff_ffff_ffff_ffff, z)
}
