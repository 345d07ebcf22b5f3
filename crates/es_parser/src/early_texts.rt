/// Early errors, and their nearest neighbours that are none.
pub const EARLY_TEXTS: &str = r##"# E1: `return` outside of functions
script return -> E1 0-6
script return a; -> E1 0-9
module return -> E1 0-6
commonjs return -> reads
script if(a)return -> E1 5-11
script function f(){return} -> reads
script ()=>{return} -> reads
script ({a(){return}}) -> reads
script class A{static{return}} -> E1 15-21
commonjs class A{static{return}} -> E1 15-21
commonjs class A{static{()=>{return}}} -> reads
script class A{a(){return}} -> reads
script function f(){class A{static{return}}} -> E1 28-34
commonjs {return} -> reads
# E2: `break` without a target
script break -> E2 0-5
script while(a)break -> reads
script do break;while(a) -> reads
script for(;;)break -> reads
script for(a in b)break -> reads
script for(a of b)break -> reads
script switch(a){case b:break} -> reads
script if(a)break -> E2 5-10
script a:break -> E2 2-7
script a:break a -> reads
script a:{break a} -> reads
script a:{break b} -> E2 3-10
script while(a){()=>{break}} -> E2 14-19
script while(a){function f(){break}} -> E2 22-27
script while(a){class A{static{break}}} -> E2 24-29
script a:{()=>{break a}} -> E2 8-15
script a:{class A{static{break a}}} -> E2 18-25
script class A{static{while(a)break}} -> reads
script a:b:{break a} -> reads
# E3: `continue` without a loop
script continue -> E3 0-8
script while(a)continue -> reads
script for(;;)continue -> reads
script switch(a){case b:continue} -> E3 17-25
script while(a)switch(b){case c:continue} -> reads
script a:while(b)continue a -> reads
script a:b:while(c)continue a -> reads
script a:{continue a} -> E3 3-13
script a:{while(b)continue a} -> E3 11-21
script while(a)continue b -> E3 8-18
script while(a){()=>{continue}} -> E3 14-22
script a:while(b){function f(){continue a}} -> E3 24-34
script while(a){class A{static{continue}}} -> E3 24-32
script while(a){class A{static{for(;;)continue}}} -> reads
# E4: a label inside a statement of the same label
script a:a:b -> E4 2-3
script a:{a:b} -> E4 3-4
script a:while(b)a:; -> E4 10-11
script a:b;a:c -> reads
script a:b:c -> reads
script a:{function f(){a:b}} -> reads
script a:{()=>{a:b}} -> reads
script a:{class A{static{a:b}}} -> reads
script function f(){a:a:b} -> E4 15-16
# E5: a name that is declared again
script let a;let a -> E5 10-11
script let a,a -> E5 6-7
script let a;let b -> reads
script const a=b;class a{} -> E5 16-17
script let [a,a]=b -> E5 7-8
script let {a,b:a}=c -> E5 9-10
script let {a:b,a:c}=d -> reads
script let a;var a -> E5 10-11
script var a;let a -> E5 10-11
script var a;var a -> reads
script let a;{let a} -> reads
script let a;{var a} -> E5 11-12
script {var a}let a -> E5 11-12
script {let a;{var a}} -> E5 12-13
script {let a}var a -> reads
script {let a;let a} -> E5 11-12
script let a;for(;;)var a -> E5 17-18
script let a;function a(){} -> E5 15-16
script function a(){}let a -> E5 18-19
script function a(){}var a -> reads
script function a(){}function a(){} -> reads
script {function a(){}function a(){}} -> reads
script {function a(){}let a} -> E5 19-20
script {function a(){}}let a -> reads
script let a;function f(){let a} -> reads
script let a;function f(){var a} -> reads
script let a;()=>{var a} -> reads
script let a;class A{static{var a}} -> reads
script let a;class A{a} -> reads
script let a;(function a(){}) -> reads
script let a;(class a{}) -> reads
script function f(a){let a} -> E5 18-19
script function f(a){const b=a} -> reads
script function f(a){var a} -> reads
script function f(a){function a(){}} -> reads
script function f(a){{let a}} -> reads
script function f([a],{b:{c}},...d){let d} -> E5 33-34
script function f(a,a){} -> reads
script (a)=>{let a} -> E5 10-11
script a=>{let a} -> E5 8-9
script a=>{var a} -> reads
script ({a(b){let b}}) -> E5 11-12
script class A{a(b){class b{}}} -> E5 19-20
script try{}catch(a){let a} -> E5 18-19
script try{}catch([a]){let a} -> E5 20-21
script try{}catch(a){var a} -> reads
script try{}catch(a){{let a}} -> reads
script try{let a}catch(a){} -> reads
script for(let a;;){let a} -> reads
script for(let a;;){var a} -> E5 17-18
script for(let a of b){var a} -> E5 20-21
script for(let a in b){var c} -> reads
script for(let a,a;;); -> E5 10-11
script for(var a;;){let a} -> reads
script switch(a){case b:let c;default:let c} -> E5 35-36
script switch(a){case b:{let c}default:let c} -> reads
script let a;switch(b){case c:let a} -> reads
script class A{static{let a;var a}} -> E5 25-26
script class A{static{let a}static{let a}} -> reads
script function f(){let arguments} -> reads
script ()=>{let arguments} -> reads
script function f(arguments){let arguments} -> E5 26-35
script let f;function f(){} -> E5 15-16
script function f(){let f} -> reads
script class A{}class A{} -> E5 15-16
module import a from "b";let a -> E5 22-23
module import a,{b as a} from "c" -> E5 15-16
module import * as a from "b";var a -> E5 27-28
module import a from "b";function a(){} -> E5 27-28
module import a from "b";import a from "c" -> E5 25-26
module import {a as b} from "c";let a -> reads
module export let a=b;export class a{} -> E5 28-29
module let a;export {a as b} -> reads
# E6: a Private that no class around declares
script a.#b -> E6 2-4
script #a in b -> E6 0-2
script class A{a(){this.#b}} -> E6 17-19
script class A{#a;b(){this.#a}} -> reads
script class A{b(){this.#a}#a(){}} -> reads
script class A{b(){this.#a}get #a(){}} -> reads
script class A{static #a;b=this.#a} -> reads
script class A{#a;b(){()=>c.#a}} -> reads
script class A{#a;b(){class B{c(){d.#a}}}} -> reads
script class A{b(){class B{#a}}c(){d.#a}} -> E6 30-32
script class A{#a}a.#a -> E6 13-15
script class A extends B.#a{#a} -> E6 18-20
script class A{#a;b(){class B extends c.#a{}}} -> reads
script class A{[a.#b]=1;#b} -> reads
script class A{#a;b(){c?.#a;#a in d}} -> reads
script class A{#a;b(){c?.#b}} -> E6 18-20
# E7: `super`
script super.a -> E7 0-5
script super() -> E7 0-5
script function f(){super.a} -> E7 13-18
script ({a:function(){super.b}}) -> E7 15-20
script ({a(){super.b}}) -> reads
script ({get a(){super.b}}) -> reads
script ({a(){()=>super.b}}) -> reads
script ({a(b=super.c){}}) -> reads
script ({a:()=>super.b}) -> E7 8-13
script ({a(){function f(){super.b}}}) -> E7 19-24
script ({a(){super()}}) -> E7 6-11
script class A{a(){super.b}} -> reads
script class A{static a(){super.b}} -> reads
script class A{a=super.b} -> reads
script class A{a=()=>super.b} -> reads
script class A{a=function(){super.b}} -> E7 21-26
script class A{static{super.a}} -> reads
script class A{[super.a](){}} -> E7 9-14
script class A extends super.a{} -> E7 16-21
script class A{constructor(){super()}} -> E7 22-27
script class A extends B{constructor(){super()}} -> reads
script class A extends B{constructor(){()=>super()}} -> reads
script class A extends B{constructor(a=super()){}} -> reads
script class A extends B{constructor(){super.a()}} -> reads
script class A extends B{constructor(){function f(){super()}}} -> E7 45-50
script class A extends B{a(){super()}} -> E7 22-27
script class A extends B{static constructor(){super()}} -> E7 39-44
script class A extends B{a=super()} -> E7 20-25
script class A extends B{static{super()}} -> E7 25-30
script class A extends B{constructor(){class C{constructor(){super()}}}} -> E7 54-59
script class A extends B{constructor(){class C{[super()](){}}}} -> reads
# E8: a second `default`
script switch(a){default:default:} -> E8 18-26
script switch(a){default:b;case c:default:d;e} -> E8 27-38
script switch(a){default:case b:} -> reads
script switch(a){default:switch(b){default:}} -> reads
# the first by place, then by code
script break;return -> E2 0-6
script return;break -> E1 0-7
script a:a:return -> E4 2-3
script super.#a -> E7 0-5
script let a;let a;continue -> E5 10-11
script a.#b;let c;let c -> E6 2-4
script switch(a){default:break;default:continue} -> E8 24-40"##;
