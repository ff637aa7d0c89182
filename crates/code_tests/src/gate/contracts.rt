//! Contracts that are samples with other bytes.

/// Bytes, and those that stand in their place.
pub type Change = (&'static [u8], &'static [u8]);

/// What a row shows, what is changed, the chain's capabilities, and what the gate says.
pub const OF_ECHO: &[(&str, &[Change], &[&str], &str)] = &[
    ("as it is", &[], &[], "taken"),
    (
        "512 pages",
        &[(
            &[0x05, 0x03, 0x01, 0x00, 0x01],
            &[0x05, 0x04, 0x01, 0x00, 0x80, 0x04],
        )],
        &[],
        "taken",
    ),
    (
        "513 pages",
        &[(
            &[0x05, 0x03, 0x01, 0x00, 0x01],
            &[0x05, 0x04, 0x01, 0x00, 0x81, 0x04],
        )],
        &[],
        "MemoryInitial(513)",
    ),
    (
        "a maximum of 512 pages",
        &[(
            &[0x05, 0x03, 0x01, 0x00, 0x01],
            &[0x05, 0x05, 0x01, 0x01, 0x01, 0x80, 0x04],
        )],
        &[],
        "MemoryMax",
    ),
    (
        "a further segment past the end",
        &[
            (&[0x0B, 0x2C, 0x01, 0x00], &[0x0B, 0x35, 0x02, 0x00]),
            (
                &[0x22, 0x7D, 0x7D],
                &[
                    0x22, 0x7D, 0x7D, 0x00, 0x41, 0xFF, 0xFF, 0x03, 0x0B, 0x02, 0x68, 0x69,
                ],
            ),
        ],
        &[],
        "DataRange(1)",
    ),
    (
        "the version with a parameter, before a query with three",
        &[(
            &[
                0x03, 0x0A, 0x09, 0x00, 0x01, 0x02, 0x03, 0x03, 0x04, 0x04, 0x04, 0x04,
            ],
            &[
                0x03, 0x0A, 0x09, 0x02, 0x01, 0x02, 0x03, 0x03, 0x04, 0x04, 0x03, 0x04,
            ],
        )],
        &[],
        "ExportType(\"interface_version_8\")",
    ),
    (
        "migrate and sudo with three parameters",
        &[(
            &[
                0x03, 0x0A, 0x09, 0x00, 0x01, 0x02, 0x03, 0x03, 0x04, 0x04, 0x04, 0x04,
            ],
            &[
                0x03, 0x0A, 0x09, 0x00, 0x01, 0x02, 0x03, 0x03, 0x03, 0x03, 0x04, 0x04,
            ],
        )],
        &[],
        "ExportType(\"migrate\")",
    ),
    (
        "reply with three parameters",
        &[(
            &[
                0x03, 0x0A, 0x09, 0x00, 0x01, 0x02, 0x03, 0x03, 0x04, 0x04, 0x04, 0x04,
            ],
            &[
                0x03, 0x0A, 0x09, 0x00, 0x01, 0x02, 0x03, 0x03, 0x04, 0x04, 0x04, 0x03,
            ],
        )],
        &[],
        "ExportType(\"reply\")",
    ),
    (
        "replx with three parameters",
        &[
            (
                &[
                    0x03, 0x0A, 0x09, 0x00, 0x01, 0x02, 0x03, 0x03, 0x04, 0x04, 0x04, 0x04,
                ],
                &[
                    0x03, 0x0A, 0x09, 0x00, 0x01, 0x02, 0x03, 0x03, 0x04, 0x04, 0x04, 0x03,
                ],
            ),
            (b"\x05reply", b"\x05replx"),
        ],
        &[],
        "taken",
    ),
    (
        "gzip in a custom section",
        &[(
            &[0x00, 0x61, 0x73, 0x6D, 0x01, 0x00, 0x00, 0x00],
            &[
                0x00, 0x61, 0x73, 0x6D, 0x01, 0x00, 0x00, 0x00, 0x00, 0x04, 0x00, 0x1F, 0x8B, 0x08,
            ],
        )],
        &[],
        "taken",
    ),
];

/// So with the sample that has all imports of a host.
pub const OF_COMMON: &[(&str, &[Change], &[&str], &str)] = &[
    ("as it is", &[], &[], "taken"),
    (
        "a table of 2500",
        &[(
            &[0x04, 0x05, 0x01, 0x70, 0x01, 0x01, 0x01],
            &[0x04, 0x06, 0x01, 0x70, 0x01, 0x01, 0xC4, 0x13],
        )],
        &[],
        "taken",
    ),
    (
        "a table of 2501",
        &[(
            &[0x04, 0x05, 0x01, 0x70, 0x01, 0x01, 0x01],
            &[0x04, 0x06, 0x01, 0x70, 0x01, 0x01, 0xC5, 0x13],
        )],
        &[],
        "TableSize(2501)",
    ),
    (
        "a public key as an i32",
        &[(
            b"\x18secp256k1_recover_pubkey\x00\x05",
            b"\x18secp256k1_recover_pubkey\x00\x03",
        )],
        &[],
        "ImportType(14)",
    ),
    (
        "an unknown signature",
        &[(b"\x0Eed25519_verify", b"\x0Eed25520_verify")],
        &[],
        "ImportUnknown(12)",
    ),
    (
        "no capability",
        &[
            (&[0x07, 0x68, 0x09], &[0x07, 0x7B, 0x0A]),
            (
                b"\x05reply\x00\x17",
                b"\x05reply\x00\x17\x10requires_staking\x02\x00",
            ),
        ],
        &[],
        "Capability(\"staking\")",
    ),
    (
        "the capability",
        &[
            (&[0x07, 0x68, 0x09], &[0x07, 0x7B, 0x0A]),
            (
                b"\x05reply\x00\x17",
                b"\x05reply\x00\x17\x10requires_staking\x02\x00",
            ),
        ],
        &["staking"],
        "taken",
    ),
    (
        "other capabilities",
        &[
            (&[0x07, 0x68, 0x09], &[0x07, 0x7B, 0x0A]),
            (
                b"\x05reply\x00\x17",
                b"\x05reply\x00\x17\x10requires_staking\x02\x00",
            ),
        ],
        &["stakin", "staking2", "Staking"],
        "Capability(\"staking\")",
    ),
    (
        "the first capability of two that isn't there",
        &[
            (&[0x07, 0x68, 0x09], &[0x07, 0x8A, 0x01, 0x0B]),
            (
                b"\x05reply\x00\x17",
                b"\x05reply\x00\x17\x10requires_staking\x02\x00\x0Crequires_ibc\x02\x00",
            ),
        ],
        &["staking", "x"],
        "Capability(\"ibc\")",
    ),
    (
        "two capabilities",
        &[
            (&[0x07, 0x68, 0x09], &[0x07, 0x8A, 0x01, 0x0B]),
            (
                b"\x05reply\x00\x17",
                b"\x05reply\x00\x17\x10requires_staking\x02\x00\x0Crequires_ibc\x02\x00",
            ),
        ],
        &["ibc", "staking"],
        "taken",
    ),
];
