//! Scripts and the pixmaps that they give.

/// What is shown, a script, and the pixmaps of a run in which all is done.
pub const DONE: [(&str, &[u8], &[u8]); 33] = [
    (
        "a new canvas is white",
        b"canvas 1 1\nexport\n",
        b"P6\n1 1\n255\n\xff\xff\xff",
    ),
    (
        "the canvas has its own paper",
        b"canvas 1 1 336699\nexport\n",
        b"P6\n1 1\n255\n\x33\x66\x99",
    ),
    (
        "leading zeros are read",
        b"canvas 01 1\nexport\n",
        b"P6\n1 1\n255\n\xff\xff\xff",
    ),
    (
        "without an export nothing is written, and the last line needs no line feed",
        b"canvas 1 1",
        b"",
    ),
    (
        "a colour of half its alpha over white",
        b"canvas 1 1\nlayer 1 0 0\nstroke 1 1\nfill 1 seq 0 0 1 1 ffffffff over 255\nfill 1 seq 0 0 1 1 ff000080 over 255\nend 1\nexport\n",
        b"P6\n1 1\n255\n\xff\x7f\x7f",
    ),
    (
        "two colours that let some through, over black",
        b"canvas 1 1 000000\nlayer 1 0 0\nstroke 1 1\nfill 1 seq 0 0 1 1 c864323c over 255\nfill 1 seq 0 0 1 1 0a141e64 over 255\nend 1\nexport\n",
        b"P6\n1 1\n255\n\x21\x16\x13",
    ),
    (
        "an alpha of 1 at a strength of 127 is 0",
        b"canvas 1 1 000000\nlayer 1 0 0\nstroke 1 1\nfill 1 seq 0 0 1 1 ffffff01 over 127\nend 1\nexport\n",
        b"P6\n1 1\n255\n\x00\x00\x00",
    ),
    (
        "an alpha of 1 at a strength of 128 is 1",
        b"canvas 1 1 000000\nlayer 1 0 0\nstroke 1 1\nfill 1 seq 0 0 1 1 ffffff01 over 128\nend 1\nexport\n",
        b"P6\n1 1\n255\n\x01\x01\x01",
    ),
    (
        "a fill of half its alpha over the paper",
        b"canvas 1 1\nlayer 1 0 0\nstroke 1 1\nfill 1 seq 0 0 1 1 ff000080 over 255\nend 1\nexport\n",
        b"P6\n1 1\n255\n\xff\x7f\x7f",
    ),
    (
        "an opacity of 128 halves it again",
        b"canvas 1 1\nlayer 1 0 0\nstroke 1 1\nfill 1 seq 0 0 1 1 ff000080 over 255\nend 1\nlook 1 128 over on\nexport\n",
        b"P6\n1 1\n255\n\xff\xbf\xbf",
    ),
    (
        "a layer that is off is not seen",
        b"canvas 1 1\nlayer 1 0 0\nstroke 1 1\nfill 1 seq 0 0 1 1 ff000080 over 255\nend 1\nlook 1 255 over off\nexport\n",
        b"P6\n1 1\n255\n\xff\xff\xff",
    ),
    (
        "a fill by multiply",
        b"canvas 1 1\nlayer 1 0 0\nstroke 1 1\nfill 1 seq 0 0 1 1 c8c8c8ff over 255\nfill 1 seq 0 0 1 1 646464ff multiply 255\nend 1\nexport\n",
        b"P6\n1 1\n255\n\x4e\x4e\x4e",
    ),
    (
        "a fill by screen",
        b"canvas 1 1\nlayer 1 0 0\nstroke 1 1\nfill 1 seq 0 0 1 1 c8c8c8ff over 255\nfill 1 seq 0 0 1 1 646464ff screen 255\nend 1\nexport\n",
        b"P6\n1 1\n255\n\xde\xde\xde",
    ),
    (
        "a fill by addition",
        b"canvas 1 1\nlayer 1 0 0\nstroke 1 1\nfill 1 seq 0 0 1 1 c8c8c8ff over 255\nfill 1 seq 0 0 1 1 646464ff addition 255\nend 1\nexport\n",
        b"P6\n1 1\n255\n\xff\xff\xff",
    ),
    (
        "a layer laid by multiply",
        b"canvas 1 1\nlayer 1 0 0\nlayer 2 0 1\nstroke 1 1\nfill 1 seq 0 0 1 1 c8c8c8ff over 255\nend 1\nstroke 2 2\nfill 2 seq 0 0 1 1 646464ff over 255\nend 2\nlook 2 255 multiply on\nexport\n",
        b"P6\n1 1\n255\n\x4e\x4e\x4e",
    ),
    (
        "a layer laid by screen",
        b"canvas 1 1\nlayer 1 0 0\nlayer 2 0 1\nstroke 1 1\nfill 1 seq 0 0 1 1 c8c8c8ff over 255\nend 1\nstroke 2 2\nfill 2 seq 0 0 1 1 646464ff over 255\nend 2\nlook 2 255 screen on\nexport\n",
        b"P6\n1 1\n255\n\xde\xde\xde",
    ),
    (
        "a layer laid by addition",
        b"canvas 1 1\nlayer 1 0 0\nlayer 2 0 1\nstroke 1 1\nfill 1 seq 0 0 1 1 c8c8c8ff over 255\nend 1\nstroke 2 2\nfill 2 seq 0 0 1 1 646464ff over 255\nend 2\nlook 2 255 addition on\nexport\n",
        b"P6\n1 1\n255\n\xff\xff\xff",
    ),
    (
        "erase by half, and then whole",
        b"canvas 1 1\nlayer 1 0 0\nstroke 1 1\nfill 1 seq 0 0 1 1 090807ff over 255\nfill 1 seq 0 0 1 1 ffffffff erase 128\nend 1\nexport\nstroke 2 1\nfill 2 seq 0 0 1 1 ffffffff erase 255\nend 2\nexport\n",
        b"P6\n1 1\n255\n\x84\x84\x83P6\n1 1\n255\n\xff\xff\xff",
    ),
    (
        "a soft dab",
        b"canvas 3 3\nlayer 1 0 0\nstroke 1 1\ndab 1 seq 1 1 1 soft 000000ff over 255\nend 1\nexport\n",
        b"P6\n3 3\n255\n\xff\xff\xff\x80\x80\x80\xff\xff\xff\x80\x80\x80\x00\x00\x00\x80\x80\x80\xff\xff\xff\x80\x80\x80\xff\xff\xff",
    ),
    (
        "a dab of one point",
        b"canvas 1 1\nlayer 1 0 0\nstroke 1 1\ndab 1 seq 0 0 0 soft 000000ff over 255\nend 1\nexport\n",
        b"P6\n1 1\n255\n\x00\x00\x00",
    ),
    (
        "the dabs of a path, one on another, in the four tiles that meet at the corner",
        b"canvas 4 1\nlayer 1 0 0\nstroke 1 1\npath 1 12 soft ff204080 over 200 7 -21 -9 20 13 9 -40\nend 1\nexport\n",
        b"P6\n4 1\n255\n\xff\x77\x8b\xff\x77\x8b\xff\x7b\x8e\xff\x7f\x92",
    ),
    (
        "redo after a stroke that was cancelled",
        b"canvas 3 1\nlayer 1 0 0\nstroke 1 1\nfill 1 seq 0 0 3 1 ff0000ff over 255\nend 1\nundo\nstroke 2 1\nfill 2 con 0 0 1 1 00ff00ff over 255\nfill 2 con 1 0 1 1 00ff00ff over 255\nfill 2 con 2 0 1 1 00ff00ff over 255\ncancel 2\nredo\nexport\n",
        b"P6\n3 1\n255\n\xff\x00\x00\xff\x00\x00\xff\x00\x00",
    ),
    (
        "a cancelled stroke leaves nothing",
        b"canvas 3 1\nlayer 1 0 0\nstroke 1 1\nfill 1 seq 0 0 3 1 ff0000ff over 255\nend 1\nundo\nstroke 2 1\nfill 2 con 0 0 1 1 00ff00ff over 255\nfill 2 con 1 0 1 1 00ff00ff over 255\nfill 2 con 2 0 1 1 00ff00ff over 255\ncancel 2\nexport\n",
        b"P6\n3 1\n255\n\xff\xff\xff\xff\xff\xff\xff\xff\xff",
    ),
    (
        "two uniquely concurrent jobs may meet",
        b"canvas 2 1\nlayer 1 0 0\nstroke 1 1\nfill 1 uni 0 0 2 1 ff0000ff over 255\nfill 1 uni 1 0 1 1 0000ffff over 255\nend 1\nexport\n",
        b"P6\n2 1\n255\n\xff\x00\x00\x00\x00\xff",
    ),
    (
        "undo and redo of a stroke",
        b"canvas 1 1\nlayer 1 0 0\nstroke 1 1\nfill 1 seq 0 0 1 1 ff0000ff over 255\nend 1\nexport\nundo\nexport\nredo\nexport\n",
        b"P6\n1 1\n255\n\xff\x00\x00P6\n1 1\n255\n\xff\xff\xffP6\n1 1\n255\n\xff\x00\x00",
    ),
    (
        "a group is removed, and comes back with its look",
        b"canvas 1 1\ngroup 1 0 0\nlayer 2 1 0\nlook 1 77 over on\nstroke 1 2\nfill 1 seq 0 0 1 1 000000ff over 255\nend 1\nremove 1\nexport\nundo\nexport\n",
        b"P6\n1 1\n255\n\xff\xff\xffP6\n1 1\n255\n\xb2\xb2\xb2",
    ),
    (
        "a barrier in an exclusive stroke",
        b"canvas 2 1\nlayer 1 0 0\nstroke 1 1 exclusive\nfill 1 con 0 0 1 1 ff0000ff over 255\nfill 1 bar 1 0 1 1 0000ffff over 255\nend 1\nexport\n",
        b"P6\n2 1\n255\n\xff\x00\x00\x00\x00\xff",
    ),
    (
        "the stroke that was started first is painted first",
        b"canvas 1 1\nlayer 1 0 0\nstroke 1 1\nstroke 2 1\nfill 2 seq 0 0 1 1 0000ffff over 255\nend 2\nfill 1 seq 0 0 1 1 ff0000ff over 255\nend 1\nexport\n",
        b"P6\n1 1\n255\n\x00\x00\xff",
    ),
    (
        "a layer's own pixel is seen everywhere",
        b"canvas 1 1\nlayer 1 0 0 00ff00ff\nexport\n",
        b"P6\n1 1\n255\n\x00\xff\x00",
    ),
    (
        "a layer's own pixel is erased",
        b"canvas 1 1\nlayer 1 0 0 00ff00ff\nstroke 1 1\nfill 1 seq 0 0 1 1 ffffffff erase 255\nend 1\nexport\n",
        b"P6\n1 1\n255\n\xff\xff\xff",
    ),
    (
        "a move leaves the layer's own pixel behind, and undo brings it back",
        b"canvas 2 1\nlayer 1 0 0 00ff00ff\nstroke 1 1\nfill 1 seq 0 0 1 1 ff0000ff over 255\nmove 1 seq 0 0 1 1 1 0\nend 1\nexport\nundo\nexport\n",
        b"P6\n2 1\n255\n\x00\xff\x00\xff\x00\x00P6\n2 1\n255\n\x00\xff\x00\x00\xff\x00",
    ),
    (
        "a blur of one point",
        b"canvas 3 1\nlayer 1 0 0\nstroke 1 1\nfill 1 seq 1 0 1 1 ff0000ff over 255\nblur 1 seq 0 0 3 1 1\nend 1\nexport\n",
        b"P6\n3 1\n255\n\xff\xe3\xe3\xff\xe3\xe3\xff\xe3\xe3",
    ),
    (
        "an id that was removed is used again, and each layer has its own history",
        b"canvas 1 1\nlayer 1 0 0\nstroke 1 1\nfill 1 seq 0 0 1 1 ff0000ff over 255\nend 1\nremove 1\nlayer 1 0 0\nstroke 2 1\nfill 2 seq 0 0 1 1 0000ffff over 255\nend 2\nundo\nundo\nundo\nexport\nredo\nredo\nredo\nexport\n",
        b"P6\n1 1\n255\n\xff\x00\x00P6\n1 1\n255\n\x00\x00\xff",
    ),
];

/// What is shown, a script, and the pixmaps of a run in which something is refused.
pub const REFUSED: [(&str, &[u8], &[u8]); 6] = [
    (
        "a conflict refuses the whole stroke",
        b"canvas 3 1\nlayer 1 0 0\nstroke 1 1\nfill 1 con 0 0 2 1 ff0000ff over 255\nfill 1 con 2 0 1 1 ff0000ff over 255\nfill 1 con 1 0 1 1 0000ffff over 255\nend 1\nexport\n",
        b"P6\n3 1\n255\n\xff\xff\xff\xff\xff\xff\xff\xff\xff",
    ),
    (
        "a conflict refuses a cancelled stroke too",
        b"canvas 3 1\nlayer 1 0 0\nstroke 1 1\nfill 1 con 0 0 2 1 ff0000ff over 255\nfill 1 con 2 0 1 1 ff0000ff over 255\nfill 1 con 1 0 1 1 0000ffff over 255\ncancel 1\nexport\n",
        b"P6\n3 1\n255\n\xff\xff\xff\xff\xff\xff\xff\xff\xff",
    ),
    (
        "a concurrent and a uniquely concurrent job conflict",
        b"canvas 2 1\nlayer 1 0 0\nstroke 1 1\nfill 1 con 0 0 2 1 ff0000ff over 255\nfill 1 uni 1 0 1 1 0000ffff over 255\nend 1\nexport\n",
        b"P6\n2 1\n255\n\xff\xff\xff\xff\xff\xff",
    ),
    (
        "undo with nothing to undo",
        b"canvas 1 1\nundo\nexport\n",
        b"P6\n1 1\n255\n\xff\xff\xff",
    ),
    (
        "a removal of nothing",
        b"canvas 1 1\nremove 7\nexport\n",
        b"P6\n1 1\n255\n\xff\xff\xff",
    ),
    (
        "purge forgets the oldest changes",
        b"canvas 1 1\nlayer 1 0 0\nstroke 1 1\nfill 1 seq 0 0 1 1 ff0000ff over 255\nend 1\nremove 1\nlayer 1 0 0\nstroke 2 1\nfill 2 seq 0 0 1 1 0000ffff over 255\nend 2\npurge 2\nundo\nundo\nundo\nexport\nredo\nredo\nredo\nexport\n",
        b"P6\n1 1\n255\n\xff\xff\xffP6\n1 1\n255\n\x00\x00\xff",
    ),
];
