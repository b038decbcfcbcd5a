// The three `from_name` readers over bytes: a name to its code, or none, which is refusal 3, for every slice of bytes.
// `dihyravo` exports them.
#![tactic(auto)]

mod letters;
mod table;

ghost use Rattle.std.specs.Prelude.{◌≡◌};
ghost use Rattle.names.specs.Names.{lookup, method_names, policy_names, interpolation_names};

// DistortMethod::from_name
pub fn method(name: &[u8]) -> Option<u64>
    ensures { result ≡ lookup method_names name.now }
{
    table::find(
        name,
        b"affine,affineprojection,scalerotatetranslate|srt,perspective,perspectiveprojection,bilinearreverse,\
         bilinear|bilinearforward,polynomial,arc,polar,depolar,barrel,barrelinverse,shepards,",
    )
}

// VirtualPixel::from_name
pub fn policy(name: &[u8]) -> Option<u64>
    ensures { result ≡ lookup policy_names name.now }
{
    table::find(
        name,
        b"edge|undefined,background,black,white,gray|grey,transparent|none,tile,mirror,horizontaltile,\
         verticaltile,horizontaltileedge,verticaltileedge,checkertile,random,",
    )
}

// PixelInterpolate::from_name
pub fn interpolation(name: &[u8]) -> Option<u64>
    ensures { result ≡ lookup interpolation_names name.now }
{
    table::find(
        name,
        b"integer,nearest|nearestneighbor,average|average4,average9,average16,bilinear,catrom|bicubic,spline,\
         background,",
    )
}
